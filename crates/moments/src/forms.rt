ghost use Rattle.std.specs.Prelude.{◌≡◌, ◌<◌, ◌≤◌, pos, ℤ, neg_ℤ, ◌+ℤ◌, ◌*ℤ◌, ◌≤ℤ◌, Some, IfSome, IfNone, MatchOption};
ghost use Rattle.texts.specs.Calls.{Finds};
ghost use Rattle.jiff_core.specs.Calendar.{IsEpochDay};
ghost use Rattle.moments.specs.Times.{IsInYears, IsTime, Form, day_micros};
ghost use Rattle.moments.specs.Inside.{day_number, date, minutes, clock, last_minutes, offset, time_of_day, behind_date, civil, seconds, signed_seconds};

use crate::digits::{FAR, fraction, number, past, two_digits};
use jiff_core::civil::Date;

const DAY_MICROS: i64 = 86_400_000_000;

const MINUTE_MICROS: i64 = 60_000_000;

const SECOND_MICROS: u64 = 1_000_000;

/// The number of a day, from 1970-01-01 on, where the calendar has it.
fn day_number(year: u16, month: u8, day: u8) -> Option<i32>
    requires year { year < 10_000 }
    requires month { month < 100 }
    requires day { day < 100 }
    ensures value { Finds (λ n. n) result (day_number year month day) }
    ensures small { IfSome result (λ n. IsEpochDay n) }
{
    if year == 0 {
        return None;
    }
    match Date::new(year as i16, month as i8, day as i8) {
        Ok(date) => Some(date.to_unix_epoch_day()),
        Err(_) => None,
    }
}

/// A date, as the number of its day, and what is behind it.
fn date(bytes: &[u8]) -> Option<(i32, &[u8])>
    ensures value { Finds (λ x. (x.0, x.1.now)) result (date bytes.now) }
    ensures small { IfSome result (λ x. IsEpochDay x.0) }
{
    let (century, rest) = two_digits(bytes)?;
    let (year, rest) = two_digits(rest)?;
    let (month, rest) = two_digits(past(b'-', rest)?)?;
    let (day, rest) = two_digits(past(b'-', rest)?)?;
    let number = day_number(u16::from(century) * 100 + u16::from(year), month, day)?;
    Some((number, rest))
}

/// Hours and minutes, in minutes, and what is behind them.
fn minutes(bytes: &[u8]) -> Option<(u32, &[u8])>
    ensures value { Finds (λ x. (x.0, x.1.now)) result (minutes bytes.now) }
    ensures small { IfSome result (λ x. x.0 < 1440) }
{
    let (hour, rest) = two_digits(bytes)?;
    let (minute, rest) = two_digits(past(b':', rest)?)?;
    if hour < 24 && minute < 60 {
        Some((u32::from(hour) * 60 + u32::from(minute), rest))
    } else {
        None
    }
}

/// A time of day, in microseconds since midnight, and what is behind it.
fn clock(bytes: &[u8]) -> Option<(u64, &[u8])>
    ensures value { Finds (λ x. (x.0, x.1.now)) result (clock bytes.now) }
    ensures small { IfSome result (λ x. x.0 ≤ 86_400_000_000) }
{
    let (minutes, rest) = minutes(bytes)?;
    let (second, rest) = two_digits(past(b':', rest)?)?;
    if second >= 60 {
        return None;
    }
    let (micros, rest) = fraction(rest)?;
    let seconds = u64::from(minutes) * 60 + u64::from(second);
    Some((seconds * SECOND_MICROS + u64::from(micros), rest))
}

/// Hours and minutes up to the end of the bytes, in minutes.
fn last_minutes(bytes: &[u8]) -> Option<u32>
    ensures value { Finds (λ n. n) result (last_minutes bytes.now) }
    ensures small { IfSome result (λ n. n < 1440) }
{
    let (minutes, rest) = minutes(bytes)?;
    if rest.is_empty() { Some(minutes) } else { None }
}

/// An offset up to the end of the bytes: the minutes that the clock is ahead of UTC.
fn offset(bytes: &[u8]) -> Option<i64>
    ensures value { Finds (λ n. n) result (offset bytes.now) }
    ensures low { IfSome result (λ n. neg_ℤ (pos 1440) ≤ℤ n) }
    ensures high { IfSome result (λ n. n ≤ℤ pos 1440) }
{
    let Some((mark, rest)) = bytes.split_first() else {
        return Some(0);
    };
    if *mark == b'Z' {
        return if rest.is_empty() { Some(0) } else { None };
    }
    if *mark == b'+' {
        let minutes = last_minutes(rest)?;
        return Some(i64::from(minutes));
    }
    if *mark == b'-' {
        let minutes = last_minutes(rest)?;
        return Some(-i64::from(minutes));
    }
    None
}

/// A time of day with its offset up to the end of the bytes, in microseconds since midnight in UTC.
fn time_of_day(bytes: &[u8]) -> Option<i64>
    ensures value { Finds (λ n. n) result (time_of_day bytes.now) }
    ensures low { IfSome result (λ n. neg_ℤ (pos 86_400_000_000) ≤ℤ n) }
    ensures high { IfSome result (λ n. n ≤ℤ pos 172_800_000_000) }
{
    let (micros, rest) = clock(bytes)?;
    let ahead = offset(rest)?;
    Some(micros as i64 - ahead * MINUTE_MICROS)
}

/// What stands behind a date, up to the end of the bytes, in microseconds since midnight in UTC.
fn behind_date(bytes: &[u8]) -> Option<i64>
    ensures value { Finds (λ n. n) result (behind_date bytes.now) }
    ensures low { IfSome result (λ n. neg_ℤ (pos 86_400_000_000) ≤ℤ n) }
    ensures high { IfSome result (λ n. n ≤ℤ pos 172_800_000_000) }
{
    if bytes.is_empty() {
        return Some(0);
    }
    time_of_day(past(b'T', bytes)?)
}

/// The instant so many microseconds behind the begin of a day.
fn instant(day: i32, micros: i64) -> i64
    requires day { IsEpochDay day }
    requires low { neg_ℤ (pos 86_400_000_000) ≤ℤ micros }
    requires high { micros ≤ℤ pos 172_800_000_000 }
    ensures { result ≡ (day *ℤ day_micros) +ℤ micros }
{
    i64::from(day) * DAY_MICROS + micros
}

/// The instant of a date, or of a date and a time of day, in microseconds from 1970 on.
fn civil(bytes: &[u8]) -> Option<i64>
    ensures { Finds (λ n. n) result (civil bytes.now) }
{
    let (day, rest) = date(bytes)?;
    let micros = behind_date(rest)?;
    Some(instant(day, micros))
}

/// Seconds up to the end of the bytes, in microseconds; none that are far.
fn seconds(bytes: &[u8]) -> Option<u64>
    ensures found { IfSome result (λ n. seconds bytes.now ≡ Some n) }
    ensures small { IfSome result (λ n. n ≤ 253_402_300_800_000_000) }
    ensures none { IfNone result (MatchOption (seconds bytes.now) (Unit {0}) (λ n. 253_402_300_800_000_000 ≤ n)) }
{
    let (whole, rest) = number(bytes)?;
    let (micros, rest) = fraction(rest)?;
    if rest.is_empty() {
        Some(whole * SECOND_MICROS + u64::from(micros))
    } else {
        None
    }
}

/// The instant of seconds from 1970 on, or before it, in microseconds; none that are far.
fn signed_seconds(bytes: &[u8]) -> Option<i64>
    ensures found { IfSome result (λ n. signed_seconds bytes.now ≡ Some n) }
    ensures none { IfNone result (MatchOption (signed_seconds bytes.now) (Unit {0}) (λ n. IsInYears n → ⊥)) }
{
    match past(b'-', bytes) {
        None => {
            let micros = seconds(bytes)?;
            Some(micros as i64)
        }
        Some(rest) => {
            let micros = seconds(rest)?;
            Some(-(micros as i64))
        }
    }
}

/// The instant of a time in any of its forms; none that is far.
#[tactic(auto, using(crate::proofs::TimeForms::civil_holds, crate::proofs::TimeForms::signed_holds, crate::proofs::TimeForms::no_time))]
pub fn any_form(bytes: &[u8]) -> Option<i64>
    ensures found { IfSome result (λ n. Form bytes.now n) }
    ensures none { IfNone result ((n : ℤ) → IsTime bytes.now n → ⊥) }
{
    match civil(bytes) {
        Some(micros) => Some(micros),
        None => signed_seconds(bytes),
    }
}
