ghost use Rattle.std.specs.Prelude.{◌≡◌, ◌+◌, ◌*◌, ◌<◌, ◌≤◌, ◌^◌, length, take};
ghost use Rattle.std.specs.Char.{is_ascii_digit};
ghost use Rattle.std.specs.List.{prefix_len};
ghost use Rattle.std.specs.Str.Parse.{digits_value, AllDigits};
ghost use Rattle.json_doc.specs.Trimmed.{IsCapped};
ghost use Rattle.jmes_syntax.specs.Numbers.{whole_of, signed_at, number_at};
ghost use Rattle.texts.specs.Calls.{Finds};

use crate::Whole;
use json_doc::capped_value;

fn digits_len(bytes: &[u8]) -> usize
    ensures value { result ≡ prefix_len is_ascii_digit bytes.now }
    ensures within { result ≤ length bytes.now }
    ensures digits { AllDigits 10 (take result bytes.now) }
{
    for (at, byte) in bytes.iter().enumerate() {
        if !byte.is_ascii_digit() {
            return at;
        }
    }
    bytes.len()
}

// The number of this sign and size, where `i64` has it.
fn whole_of(is_negative: bool, size: u128) -> Option<Whole>
    ensures { result ≡ whole_of is_negative size }
{
    let most = if is_negative { 1 << 63 } else { (1 << 63) - 1 };
    if most < size {
        return None;
    }
    Some(Whole {
        is_negative: is_negative && 0 < size,
        magnitude: size as u64,
    })
}

// Whether a minus stands in front, and what is behind it.
fn signed_at(bytes: &[u8]) -> (bool, &[u8])
    ensures { (result.0, result.1.now) ≡ signed_at bytes.now }
{
    match bytes.split_first() {
        Some((b'-', rest)) => (true, rest),
        _ => (false, bytes),
    }
}

/// The number in front, and what is behind its digits.
pub fn read_number(bytes: &[u8]) -> Option<(Whole, &[u8])>
    ensures { Finds (λ x. (x.0, x.1.now)) result (number_at bytes.now) }
{
    let (is_negative, rest) = signed_at(bytes);
    let (digits, rest) = rest.split_at(digits_len(rest));
    if digits.is_empty() {
        return None;
    }
    let number = whole_of(is_negative, capped_value(digits))?;
    Some((number, rest))
}
