//! The functions on numbers.
ghost use Rattle.std.specs.Prelude.{◌≡◌, ◌<◌, ◌≤◌, ◌/◌, ◌^◌, if◌then◌else◌, IfOk};
ghost use Rattle.json_doc.specs.Exact.{HasValue};
ghost use Rattle.texts.specs.Calls.{Answers};
ghost use Rattle.jmes_eval.specs.Answers.{is_memory, all_of, due};
ghost use Rattle.jmes_eval.specs.Kinds.{number_of};
ghost use Rattle.std.specs.List.{list_any};
ghost use Rattle.json_doc.specs.Grammar.{is_blank};
ghost use Rattle.json_doc.specs.Scan.{begins_number};
ghost use Rattle.jmes_eval.specs.Numbers.{abs_of, ceil_of, ceil_value, count_of, cut_off, filled_up, floor_of, floor_value, is_bare, size_of, sum_of, or_null, parsed, total_of, to_number_of, whole};

use crate::QueryFault;
use crate::kinds::{items, number};
use json_doc::{Decimal, Doc, OutOfMemory, ReadFault, Text};
use std::alloc::Global;

/// A count, as a number.
pub(crate) fn count(n: usize) -> Result<Doc, QueryFault>
    ensures { Answers is_memory (λ x. x) result (count_of n) }
{
    Ok(Doc::Number(whole(false, n as u128)))
}

pub(crate) fn abs(doc: &Doc) -> Result<Doc, QueryFault>
    ensures { Answers is_memory (λ x. x) result (abs_of doc.now) }
{
    Ok(Doc::Number(size(number(doc)?)))
}

pub(crate) fn floor(doc: &Doc) -> Result<Doc, QueryFault>
    ensures { Answers is_memory (λ x. x) result (floor_of doc.now) }
{
    Ok(Doc::Number(lower(number(doc)?)))
}

pub(crate) fn ceil(doc: &Doc) -> Result<Doc, QueryFault>
    ensures { Answers is_memory (λ x. x) result (ceil_of doc.now) }
{
    Ok(Doc::Number(higher(number(doc)?)))
}

/// A whole number; zero has no sign.
fn whole(is_negative: bool, size: u128) -> Decimal
    requires { size < 10 ^ 36 }
    ensures { HasValue result (whole is_negative size) }
{
    Decimal {
        is_negative: is_negative && size > 0,
        magnitude: size,
        scale: 0,
    }
}

/// A number without its sign.
fn size(n: Decimal) -> Decimal
    ensures { HasValue result (size_of n) }
{
    Decimal {
        is_negative: false,
        magnitude: n.magnitude,
        scale: n.scale,
    }
}

/// The next lower whole number, where it is none itself.
fn lower(n: Decimal) -> Decimal
    ensures { HasValue result (floor_value n) }
{
    let size = if n.is_negative {
        filled_up(n)
    } else {
        cut_off(n)
    };
    whole(n.is_negative, size)
}

/// The next higher whole number, where it is none itself.
fn higher(n: Decimal) -> Decimal
    ensures { HasValue result (ceil_value n) }
{
    let size = if n.is_negative {
        cut_off(n)
    } else {
        filled_up(n)
    };
    whole(n.is_negative, size)
}

/// The size of a number without its places.
fn cut_off(n: Decimal) -> u128
    ensures value { result ≡ cut_off n.magnitude n.scale }
    ensures small { result < 10 ^ 36 }
{
    n.magnitude / unit(n.scale)
}

/// The size of a number, or the next whole number where it has places.
fn filled_up(n: Decimal) -> u128
    ensures value { result ≡ filled_up n.magnitude n.scale }
    ensures small { result < 10 ^ 36 }
{
    let unit = unit(n.scale);
    if n.magnitude % unit == 0 {
        return n.magnitude / unit;
    }
    n.magnitude / unit + 1
}

/// How many units of the last place make one.
fn unit(scale: u8) -> u128
    requires { scale ≤ 30 }
    ensures value { result ≡ 10 ^ scale }
    ensures positive { 0 < result }
{
    10u128.pow(u32::from(scale))
}

/// The sum of a list of numbers, added from the left.
pub(crate) fn sum(alloc: Global, doc: &Doc) -> Result<Doc, QueryFault>
    ensures { Answers is_memory (λ x. x) result (sum_of doc.now) }
{
    let numbers = numbers(alloc, items(doc)?)?;
    match total(numbers.as_slice()) {
        Some(total) => Ok(Doc::Number(total)),
        None => Err(QueryFault::NumberTooWide),
    }
}

/// The numbers of a list that has only numbers.
fn numbers(alloc: Global, items: &[Doc]) -> Result<Vec<Decimal>, QueryFault>
    ensures { Answers is_memory (λ numbers. numbers.items) result (due (all_of number_of items.now)) }
{
    let mut numbers = Vec::with_capacity(alloc, items.len())?;
    for item in items {
        match number(item) {
            Ok(n) => numbers.push(n)?,
            Err(fault) => return Err(fault),
        }
    }
    Ok(numbers)
}

/// The sum from the left, where each partial sum is a decimal.
fn total(numbers: &[Decimal]) -> Option<Decimal>
    ensures { result ≡ total_of numbers.now }
{
    let mut total = whole(false, 0);
    for n in numbers {
        match total.add(n) {
            Some(sum) => total = sum,
            None => return None,
        }
    }
    Some(total)
}

/// A number as it is, a text that is a JSON number as that number, else null.
pub(crate) fn to_number(alloc: Global, doc: &Doc) -> Result<Doc, OutOfMemory>
    ensures { IfOk result (λ made. made ≡ to_number_of doc.now) }
{
    match doc {
        Doc::Number(n) => Ok(Doc::Number(*n)),
        Doc::Str(text) => parsed(alloc, text),
        _ => Ok(Doc::Null),
    }
}

/// The number that a text is, or null. No blank stands in a number.
fn parsed(alloc: Global, text: &Text) -> Result<Doc, OutOfMemory>
    ensures { IfOk result (λ made. made ≡ or_null (parsed text.now)) }
{
    let bytes = text.as_str().as_bytes();
    if !is_bare(bytes) {
        return Ok(Doc::Null);
    }
    match json_doc::read(alloc, bytes) {
        Ok(doc) => Ok(number_or_null(&doc)),
        Err(ReadFault::Syntax(_)) => Ok(Doc::Null),
        Err(ReadFault::TooDeep(_)) => Ok(Doc::Null),
        Err(ReadFault::NumberTooWide(_)) => Ok(Doc::Null),
        Err(ReadFault::OutOfMemory) => Err(OutOfMemory),
    }
}

fn number_or_null(doc: &Doc) -> Doc
    ensures { result ≡ or_null (number_of doc.now) }
{
    match doc {
        Doc::Number(n) => Doc::Number(*n),
        _ => Doc::Null,
    }
}

/// Whether bytes begin as a number and have no blank.
fn is_bare(bytes: &[u8]) -> bool
    ensures { result ≡ is_bare bytes.now }
{
    begins_number(bytes) && !has_blank(bytes)
}

fn begins_number(bytes: &[u8]) -> bool
    ensures { result ≡ begins_number bytes.now }
{
    match bytes.first() {
        Some(first) => *first == b'-' || first.is_ascii_digit(),
        None => false,
    }
}

fn has_blank(bytes: &[u8]) -> bool
    ensures { result ≡ list_any is_blank bytes.now }
{
    for byte in bytes {
        if is_blank(*byte) {
            return true;
        }
    }
    false
}

fn is_blank(byte: u8) -> bool
    ensures { result ≡ is_blank byte }
{
    byte == b' ' || byte == b'\t' || byte == b'\n' || byte == b'\r'
}
