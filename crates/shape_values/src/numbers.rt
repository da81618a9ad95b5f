//! Whole numbers and flags as words.
ghost use Rattle.std.specs.Prelude.{◌≡◌};
ghost use Rattle.shape_values.specs.Scalars.{in_64_bits, are_digits, number_of, whole_of, flag_of};

use json_doc::capped_value;

/// The whole number of 64 bits that a word is: digits with a minus before them, or without.
pub fn whole_of(word: &[u8]) -> Option<i64>
    ensures { result ≡ whole_of word.now }
{
    match word {
        [b'-', digits @ ..] => number_of(true, digits),
        digits => number_of(false, digits),
    }
}

fn number_of(is_negative: bool, digits: &[u8]) -> Option<i64>
    ensures { result ≡ number_of is_negative digits.now }
{
    if are_digits(digits) {
        in_64_bits(is_negative, capped_value(digits))
    } else {
        None
    }
}

fn are_digits(digits: &[u8]) -> bool
    ensures { result ≡ are_digits digits.now }
{
    for b in digits {
        if !b.is_ascii_digit() {
            return false;
        }
    }
    !digits.is_empty()
}

fn in_64_bits(is_negative: bool, magnitude: u128) -> Option<i64>
    ensures { result ≡ in_64_bits is_negative magnitude }
{
    let magnitude = i128::try_from(magnitude).ok()?;
    let value = if is_negative { -magnitude } else { magnitude };
    i64::try_from(value).ok()
}

/// The flag that a word is, in letters of any case.
pub fn flag_of(word: &[u8]) -> Option<bool>
    ensures { result ≡ flag_of word.now }
{
    if word.eq_ignore_ascii_case(b"true".as_slice()) {
        Some(true)
    } else if word.eq_ignore_ascii_case(b"false".as_slice()) {
        Some(false)
    } else {
        None
    }
}
