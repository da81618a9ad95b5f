ghost use Rattle.std.specs.Prelude.{ℤ, IfSome, IfNone, encode_utf8_all};
ghost use Rattle.moments.specs.Times.{IsTime};

use crate::forms::any_form;
use texts::Text;

/// The first and the last microsecond of the years 0001 to 9999, from 1970 on.
const FIRST: i64 = -62_135_596_800_000_000;

const LAST: i64 = 253_402_300_799_999_999;

/// The instant that a time names, in microseconds from 1970-01-01T00:00:00Z on; none for a text that is no time. A time
/// is decimal seconds from there on; or a date; or a date and a time of day, with an offset from UTC or none, after
/// RFC 3339: by the proleptic Gregorian calendar, in the years 0001 to 9999. It takes no memory.
#[tactic(auto, using(crate::proofs::TimeForms::no_time_else))]
pub fn moment(text: &Text) -> Option<i64>
    ensures found { IfSome result (λ instant. IsTime (encode_utf8_all text.now) instant) }
    ensures none { IfNone result ((instant : ℤ) → IsTime (encode_utf8_all text.now) instant → ⊥) }
{
    let micros = any_form(text.as_str().as_bytes())?;
    if micros < FIRST || micros > LAST {
        return None;
    }
    Some(micros)
}

#[cfg(test)]
mod tests {
    use super::*;
    use std::test::Fail;

    #[test]
    fn names_instants(rt: HostRuntime) -> Result<(), Fail> {
        let alloc = rt.alloc();
        let rows = [
            ("2021-02-29", None),
            (
                "2020-02-29T23:59:59.999999+01:00",
                Some(1_583_017_199_999_999),
            ),
            ("-1.5", Some(-1_500_000)),
            ("1.", None),
            ("0001-01-01", Some(-62_135_596_800_000_000)),
            ("253402300800", None),
            ("9999-12-31T23:59:59.999999Z", Some(253_402_300_799_999_999)),
            ("0001-01-01T00:00:00+00:01", None),
            ("1970-01-01T00:00", None),
            ("", None),
        ];
        for (text, instant) in rows {
            assert_eq!(rt; moment(&Text::from_str(alloc, text)?), instant);
        }
        Ok(())
    }
}
