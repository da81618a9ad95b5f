ghost use Rattle.std.specs.Prelude.{◌≡◌, ◌<◌, ◌≤◌, IfSome, IfNone, MatchOption};
ghost use Rattle.texts.specs.Calls.{Finds};
ghost use Rattle.moments.specs.Inside.{digit, two_digits, past, number, fraction_of, fraction};
ghost use Rattle.moments.specs.Times.{begins_with_digit};

/// No time has so many seconds, from 1970 on or before it.
pub const FAR: u64 = 253_402_300_800;

/// The digit in front, as a number, and what is behind it.
fn digit(bytes: &[u8]) -> Option<(u8, &[u8])>
    ensures value { Finds (λ x. (x.0, x.1.now)) result (digit bytes.now) }
    ensures small { IfSome result (λ x. x.0 < 10) }
{
    let (first, rest) = bytes.split_first()?;
    if first.is_ascii_digit() {
        Some((*first - b'0', rest))
    } else {
        None
    }
}

/// Two digits in front, as a number, and what is behind them.
pub fn two_digits(bytes: &[u8]) -> Option<(u8, &[u8])>
    ensures value { Finds (λ x. (x.0, x.1.now)) result (two_digits bytes.now) }
    ensures small { IfSome result (λ x. x.0 < 100) }
{
    let (tens, rest) = digit(bytes)?;
    let (ones, rest) = digit(rest)?;
    Some((tens * 10 + ones, rest))
}

/// What is behind a mark that stands in front.
pub fn past(mark: u8, bytes: &[u8]) -> Option<&[u8]>
    ensures { Finds (λ x. x.now) result (past mark bytes.now) }
{
    let (first, rest) = bytes.split_first()?;
    if *first == mark { Some(rest) } else { None }
}

fn begins_with_digit(bytes: &[u8]) -> bool
    ensures { result ≡ begins_with_digit bytes.now }
{
    match bytes.first() {
        Some(byte) => byte.is_ascii_digit(),
        None => false,
    }
}

/// The number in front and what is behind its digits; none that is far.
#[tactic(auto, using(crate::proofs::MoreDigits::grows))]
pub fn number(bytes: &[u8]) -> Option<(u64, &[u8])>
    ensures found { IfSome result (λ x. number bytes.now ≡ Some (x.0, x.1.now)) }
    ensures small { IfSome result (λ x. x.0 < FAR) }
    ensures none { IfNone result (MatchOption (number bytes.now) (Unit {0}) (λ x. FAR ≤ x.0)) }
{
    if !begins_with_digit(bytes) {
        return None;
    }
    let mut number = 0;
    let mut rest = bytes;
    while let Some((more, behind)) = digit(rest) {
        number = number * 10 + u64::from(more);
        rest = behind;
        if number >= FAR {
            return None;
        }
    }
    Some((number, rest))
}

/// The decimals of a second in front, in microseconds, and what is behind them.
fn fraction_of(bytes: &[u8]) -> Option<(u32, &[u8])>
    ensures value { Finds (λ x. (x.0, x.1.now)) result (fraction_of bytes.now) }
    ensures small { IfSome result (λ x. x.0 ≤ 1_000_000) }
{
    if !begins_with_digit(bytes) {
        return None;
    }
    let mut place = 100_000;
    let mut micros = 0;
    let mut rest = bytes;
    while let Some((more, behind)) = digit(rest) {
        if place == 0 {
            return None;
        }
        micros += u32::from(more) * place;
        place /= 10;
        rest = behind;
    }
    Some((micros, rest))
}

/// A fraction of a second, in microseconds, where one stands in front, and what is behind it.
pub fn fraction(bytes: &[u8]) -> Option<(u32, &[u8])>
    ensures value { Finds (λ x. (x.0, x.1.now)) result (fraction bytes.now) }
    ensures small { IfSome result (λ x. x.0 ≤ 1_000_000) }
{
    match past(b'.', bytes) {
        None => Some((0, bytes)),
        Some(decimals) => fraction_of(decimals),
    }
}
