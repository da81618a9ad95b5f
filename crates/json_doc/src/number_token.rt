//! Numbers of JSON (RFC 8259, section 6).
ghost use Rattle.std.specs.Prelude.{◌≡◌, ◌+◌, ◌*◌, ◌^◌, ◌<◌, ◌≤◌, List, ℕ, length, Ok, Err, IfOk, IfErr, IfSome, IfNone, MatchResult};
ghost use Rattle.std.specs.Char.{is_ascii_digit};
ghost use Rattle.std.specs.List.{prefix_len};
ghost use Rattle.std.specs.Str.Parse.{digits_value, AllDigits};
ghost use Rattle.texts.specs.Calls.{Gives};
ghost use Rattle.json_doc.specs.NumberToken.{digits_at, int_at, frac_at, sign_at, exp_at, minus_at, number_at, value_of, raised, lowered, HasDigits, Number, BeginsWithNumber, ReadsNumber};
ghost use Rattle.json_doc.specs.declared.stop.Stop.TheVariants.{NumberTooWide as TooWide};
ghost use Rattle.json_doc.specs.Exact.{HasValue, HasNoDecimal};
ghost use Rattle.json_doc.specs.Trimmed.{IsCapped};
ghost use Rattle.json_doc.specs.NumberParts.{exponent_of, number_of};

use crate::Decimal;
use crate::capped::capped_value;
use crate::decimal_parts::decimal_of_parts;
use crate::significand::Significand;
use crate::stop::Stop;

// How many digits stand in front.
fn digits_len(bytes: &[u8]) -> usize
    ensures value { result ≡ prefix_len is_ascii_digit bytes.now }
    ensures within { result ≤ length bytes.now }
{
    for (at, b) in bytes.iter().enumerate() {
        if !b.is_ascii_digit() {
            return at;
        }
    }
    bytes.len()
}

// The digits in front, one at least, and what is behind them.
#[tactic(auto, unfolding(crate::specs::NumberToken::digits_at))]
fn digits_at(bytes: &[u8]) -> Result<(&[u8], &[u8]), Stop>
    ensures { Gives (λ x. (x.0.now, x.1.now)) result (digits_at bytes.now) }
{
    let len = digits_len(bytes);
    if len == 0 {
        return Err(Stop::Syntax(bytes.len()));
    }
    Ok(bytes.split_at(len))
}

// A zero alone, or digits.
#[tactic(auto, unfolding(crate::specs::NumberToken::int_at))]
fn int_at(bytes: &[u8]) -> Result<(&[u8], &[u8]), Stop>
    ensures { Gives (λ x. (x.0.now, x.1.now)) result (int_at bytes.now) }
{
    match bytes.first() {
        Some(b'0') => Ok(bytes.split_at(1)),
        _ => digits_at(bytes),
    }
}

// The digits behind a point, or none.
#[tactic(auto, unfolding(crate::specs::NumberToken::frac_at))]
fn frac_at(bytes: &[u8]) -> Result<(&[u8], &[u8]), Stop>
    ensures { Gives (λ x. (x.0.now, x.1.now)) result (frac_at bytes.now) }
{
    match bytes.split_first() {
        Some((b'.', rest)) => digits_at(rest),
        _ => Ok(bytes.split_at(0)),
    }
}

// Whether the exponent's sign is a minus, and what is behind the sign.
fn sign_at(bytes: &[u8]) -> (bool, &[u8])
    ensures { (result.0, result.1.now) ≡ sign_at bytes.now }
{
    match bytes.split_first() {
        Some((b'-', rest)) => (true, rest),
        Some((b'+', rest)) => (false, rest),
        _ => (false, bytes),
    }
}

// An exponent's sign and digits; without an exponent there are none.
#[derive(Clone, Copy)]
struct ExponentParts<'a> {
    is_negative: bool,
    digits: &'a [u8],
}

// The parts of a number, each its digits alone.
#[derive(Clone, Copy)]
struct NumberParts<'a> {
    is_negative: bool,
    int: &'a [u8],
    frac: &'a [u8],
    exp: ExponentParts<'a>,
}

// The exponent behind its mark, or none.
#[tactic(auto, unfolding(crate::specs::NumberToken::exp_at))]
fn exp_at(bytes: &[u8]) -> Result<(ExponentParts<'_>, &[u8]), Stop>
    ensures { Gives (λ x. (exponent_of x.0, x.1.now)) result (exp_at bytes.now) }
{
    match bytes.split_first() {
        Some((b'e' | b'E', rest)) => {
            let (is_negative, rest) = sign_at(rest);
            let (digits, rest) = digits_at(rest)?;
            Ok((
                ExponentParts {
                    is_negative,
                    digits,
                },
                rest,
            ))
        }
        _ => {
            let (digits, rest) = bytes.split_at(0);
            Ok((
                ExponentParts {
                    is_negative: false,
                    digits,
                },
                rest,
            ))
        }
    }
}

// Whether a minus stands in front, and what is behind it.
fn minus_at(bytes: &[u8]) -> (bool, &[u8])
    ensures { (result.0, result.1.now) ≡ minus_at bytes.now }
{
    match bytes.split_first() {
        Some((b'-', rest)) => (true, rest),
        _ => (false, bytes),
    }
}

// The parts of the number in front.
#[tactic(auto, unfolding(crate::specs::NumberToken::number_at))]
fn number_at(bytes: &[u8]) -> Result<(NumberParts<'_>, &[u8]), Stop>
    ensures { Gives (λ x. (number_of x.0, x.1.now)) result (number_at bytes.now) }
{
    let (is_negative, rest) = minus_at(bytes);
    let (int, rest) = int_at(rest)?;
    let (frac, rest) = frac_at(rest)?;
    let (exp, rest) = exp_at(rest)?;
    Ok((
        NumberParts {
            is_negative,
            int,
            frac,
            exp,
        },
        rest,
    ))
}

// The powers of ten by which an exponent raises and lowers a number.
fn powers(exponent: ExponentParts<'_>) -> (u128, u128)
    requires { AllDigits 10 (exponent_of exponent).digits }
    ensures up { IsCapped result.0 (raised (exponent_of exponent.entry)) }
    ensures down { IsCapped result.1 (lowered (exponent_of exponent.entry)) }
    ensures small { (result.0 < 2 ^ 70) × (result.1 < 2 ^ 70) }
{
    let power = capped_value(exponent.digits);
    if exponent.is_negative {
        (0, power)
    } else {
        (power, 0)
    }
}

// The decimal with the value of a number.
fn decimal_of(number: &NumberParts<'_>) -> Option<Decimal>
    requires { HasDigits (number_of number.now) }
    ensures some { IfSome result (λ d. HasValue d (value_of (number_of number.now))) }
    ensures none { IfNone result (HasNoDecimal (value_of (number_of number.now))) }
{
    let int = Significand::zero().with_digits(number.int)?;
    let digits = int.with_digits(number.frac)?;
    let (up, down) = powers(number.exp);
    let places = number.frac.len() as u128;
    decimal_of_parts(
        number.is_negative,
        digits.front,
        digits.zeros + up,
        places + down,
    )
}

/// Reads a number, and gives its decimal and what is behind it.
pub(crate) fn read_number(bytes: &[u8]) -> Result<(Decimal, &[u8]), Stop>
    ensures read { IfOk result (λ x. ReadsNumber bytes.now (Ok (x.0, x.1.now))) }
    ensures fault { IfErr result (λ stop. ReadsNumber bytes.now (Err stop)) }
    ensures shorter { IfOk result (λ x. length x.1.now < length bytes.now) }
    // What is read is a number of the grammar, as long as it can be, and each such number is read.
    ensures spelled { IfOk result (λ x. (n : Number) × BeginsWithNumber bytes.now n x.1.now × HasValue x.0 (value_of n)) }
    ensures only { (n : Number) (rest : List ℕ) → BeginsWithNumber bytes.now n rest
        → MatchResult result (λ x. HasValue x.0 (value_of n) × (x.1.now ≡ rest))
        (λ stop. (stop ≡ TooWide (length bytes.now)) × HasNoDecimal (value_of n)) }
{
    let (number, rest) = number_at(bytes)?;
    match decimal_of(&number) {
        Some(decimal) => Ok((decimal, rest)),
        None => Err(Stop::NumberTooWide(bytes.len())),
    }
}

/// What is behind a number, whatever its size.
pub(crate) fn skip_number(bytes: &[u8]) -> Result<&[u8], Stop>
    ensures passed { IfOk result (λ rest. (n : Number) × (number_at bytes.now ≡ Ok (n, rest.now))) }
    ensures fault { IfErr result (λ stop. number_at bytes.now ≡ Err stop) }
    ensures shorter { IfOk result (λ rest. length rest.now < length bytes.now) }
{
    let (_, rest) = number_at(bytes)?;
    Ok(rest)
}
