//! Whole numbers of many digits.
ghost use Rattle.std.specs.Prelude.{◌≡◌, ◌+◌, ◌*◌, ◌<◌, ◌≤◌, ◌^◌};
ghost use Rattle.std.specs.Str.Parse.{digits_value, AllDigits};
ghost use Rattle.json_doc.specs.Trimmed.{IsCapped};

// Past every number that a length, an exponent of fitting digits or a machine's whole number can be.
const FAR: u128 = 100_000_000_000_000_000_000;

// A number with one digit more, unless it is far already.
fn with_digit(number: u128, digit: u8) -> u128
    requires digit { digit < 10 }
    requires room { number < 2 ^ 70 }
    ensures near { number < 10 ^ 20 → result ≡ number * 10 + digit }
    ensures far { 10 ^ 20 ≤ number → result ≡ number }
    ensures small { result < 2 ^ 70 }
{
    if FAR <= number {
        number
    } else {
        number * 10 + u128::from(digit)
    }
}

/// The value of decimal digits, and from 10^20 on any number from there on.
pub fn capped_value(digits: &[u8]) -> u128
    requires { AllDigits 10 digits.now }
    ensures value { IsCapped result (digits_value 10 digits.now) }
    ensures small { result < 2 ^ 70 }
{
    let mut value = 0;
    for b in digits {
        value = with_digit(value, *b - b'0');
    }
    value
}
