ghost use Rattle.std.specs.Prelude.{◌≡◌, ◌↔◌, unsigned_abs, IsSome, IfSome};
ghost use Rattle.sigv4.specs.Moment.{IsMoment};

/// The last second of the year 9999, in seconds since 1970.
const LAST_MOMENT: i64 = 253_402_300_799;

/// A moment in seconds since 1970, where it lies in the years 1970 to 9999.
pub fn seconds_of(now: i64) -> Option<u64>
    ensures range { IsSome result ↔ IsMoment now }
    ensures value { IfSome result (λ seconds. seconds ≡ unsigned_abs now) }
{
    if now < 0 || now > LAST_MOMENT {
        return None;
    }
    Some(now as u64)
}
