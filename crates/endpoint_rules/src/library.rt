//! The functions of the rules' language on values. Null in place of a needed value gives null, unless
//! a function says otherwise; a value of another kind is a clash, also beside a null.
ghost use Rattle.std.specs.Prelude.{◌≡◌, IfOk};
ghost use Rattle.std.specs.Str.{chars};
ghost use Rattle.endpoint_rules.specs.Free.{stops_for_memory};
ghost use Rattle.texts.specs.Calls.{Answers, Finds};
ghost use Rattle.endpoint_rules.specs.declared.stop.Stop.TheVariants as stop;
ghost use Rattle.endpoint_rules.specs.Library.{applied, of_one, of_two, is_set, not_of, get_attr, substring, part_between, string_equals, boolean_equals, uri_encode, parse_url, is_valid_host_label, partition, parse_arn};

use crate::host_label::is_host_label;
use crate::kinds::{flag, text, whole};
use crate::stop::Stop;
use crate::{arn, urls};
use json_doc::{Doc, copy};
use rule_sets::Partitions;
use rule_terms::{Function, attribute};
use std::alloc::Global;
use texts::Text;
use uri_texts::{Slashes, escaped};

/// The value of a function for the values of its arguments. Reading has judged their number.
pub fn apply(
    alloc: Global,
    partitions: &Partitions,
    function: Function,
    values: &[Doc],
) -> Result<Doc, Stop>
    ensures { Answers stops_for_memory (λ value. value) result (applied partitions.now function values.now) }
{
    match values {
        [value] => of_one(alloc, partitions, function, value),
        [first, second] => of_two(alloc, function, first, second),
        [text, start, stop, reverse] if function == Function::Substring => {
            substring(alloc, text, start, stop, reverse)
        }
        _ => Err(Stop::Clash),
    }
}

fn of_one(
    alloc: Global,
    partitions: &Partitions,
    function: Function,
    value: &Doc,
) -> Result<Doc, Stop>
    ensures { Answers stops_for_memory (λ value. value) result (of_one partitions.now function value.now) }
{
    match function {
        Function::IsSet => Ok(is_set(value)),
        Function::Not => not(value),
        Function::UriEncode => uri_encode(alloc, value),
        Function::ParseUrl => parse_url(alloc, value),
        Function::Partition => partition(alloc, partitions, value),
        Function::ParseArn => parse_arn(alloc, value),
        _ => Err(Stop::Clash),
    }
}

fn of_two(alloc: Global, function: Function, first: &Doc, second: &Doc) -> Result<Doc, Stop>
    ensures { Answers stops_for_memory (λ value. value) result (of_two function first.now second.now) }
{
    match function {
        Function::GetAttr => get_attr(alloc, first, second),
        Function::StringEquals => string_equals(first, second),
        Function::BooleanEquals => boolean_equals(first, second),
        Function::IsValidHostLabel => is_valid_host_label(alloc, first, second),
        _ => Err(Stop::Clash),
    }
}

/// `isSet`
fn is_set(value: &Doc) -> Doc
    ensures { result ≡ is_set value.now }
{
    Doc::Flag(!matches!(value, Doc::Null))
}

/// `not`, for which null counts as false.
fn not(value: &Doc) -> Result<Doc, Stop>
    ensures { result ≡ not_of value.now }
{
    match flag(value)? {
        Some(true) => Ok(Doc::Flag(false)),
        _ => Ok(Doc::Flag(true)),
    }
}

/// `getAttr`, for a value of any kind.
fn get_attr(alloc: Global, value: &Doc, path: &Doc) -> Result<Doc, Stop>
    ensures { Answers stops_for_memory (λ value. value) result (get_attr value.now path.now) }
{
    let Some(path) = text(path)? else {
        return Ok(Doc::Null);
    };
    match attribute(alloc, value, path.as_str())? {
        Some(found) => Ok(copy(alloc, found)?),
        None => Ok(Doc::Null),
    }
}

/// `substring`
fn substring(alloc: Global, value: &Doc, start: &Doc, end: &Doc, reverse: &Doc) -> Result<Doc, Stop>
    ensures { Answers stops_for_memory (λ value. value) result
        (substring value.now start.now end.now reverse.now) }
{
    let (value, start, end, reverse) = (text(value)?, whole(start)?, whole(end)?, flag(reverse)?);
    let (Some(value), Some(start), Some(end), Some(reverse)) = (value, start, end, reverse) else {
        return Ok(Doc::Null);
    };
    match part_between(value.as_str(), start, end, reverse) {
        Some(part) => Ok(Doc::Str(Text::from_str(alloc, part)?)),
        None => Ok(Doc::Null),
    }
}

/// The part of an ASCII text between two places, counted from its end with `reverse`.
fn part_between(text: &str, start: u128, end: u128, reverse: bool) -> Option<&str>
    ensures { Finds (λ part. chars part.now) result (part_between (chars text.now) start end reverse) }
{
    if !text.is_ascii() {
        return None;
    }
    if start >= end {
        return None;
    }
    if end > text.len() as u128 {
        return None;
    }
    let (start, end) = (start as usize, end as usize);
    if reverse {
        Some(&text[text.len() - end..text.len() - start])
    } else {
        Some(&text[start..end])
    }
}

/// `stringEquals`, false where either is null.
fn string_equals(first: &Doc, second: &Doc) -> Result<Doc, Stop>
    ensures { result ≡ string_equals first.now second.now }
{
    match (text(first)?, text(second)?) {
        (Some(first), Some(second)) => Ok(Doc::Flag(first == second)),
        _ => Ok(Doc::Flag(false)),
    }
}

/// `booleanEquals`, false where either is null.
fn boolean_equals(first: &Doc, second: &Doc) -> Result<Doc, Stop>
    ensures { result ≡ boolean_equals first.now second.now }
{
    match (flag(first)?, flag(second)?) {
        (Some(first), Some(second)) => Ok(Doc::Flag(first == second)),
        _ => Ok(Doc::Flag(false)),
    }
}

/// `uriEncode`
fn uri_encode(alloc: Global, value: &Doc) -> Result<Doc, Stop>
    ensures { Answers stops_for_memory (λ value. value) result (uri_encode value.now) }
{
    match text(value)? {
        Some(text) => Ok(Doc::Str(escaped(alloc, text.as_str(), Slashes::Escaped)?)),
        None => Ok(Doc::Null),
    }
}

/// `parseURL`
fn parse_url(alloc: Global, value: &Doc) -> Result<Doc, Stop>
    ensures { Answers stops_for_memory (λ value. value) result (parse_url value.now) }
{
    match text(value)? {
        Some(text) => Ok(urls::parse_url(alloc, text.as_str())?),
        None => Ok(Doc::Null),
    }
}

/// `isValidHostLabel`
fn is_valid_host_label(alloc: Global, value: &Doc, dots: &Doc) -> Result<Doc, Stop>
    ensures { Answers stops_for_memory (λ value. value) result (is_valid_host_label value.now dots.now) }
{
    match (text(value)?, flag(dots)?) {
        (Some(text), Some(dots)) => Ok(Doc::Flag(is_host_label(alloc, text.as_str(), dots)?)),
        _ => Ok(Doc::Null),
    }
}

/// `aws.partition`
fn partition(alloc: Global, partitions: &Partitions, region: &Doc) -> Result<Doc, Stop>
    ensures { Answers stops_for_memory (λ value. value) result (partition partitions.now region.now) }
{
    let Some(region) = text(region)? else {
        return Ok(Doc::Null);
    };
    match partitions.outputs(alloc, region.as_str())? {
        Some(outputs) => Ok(copy(alloc, outputs)?),
        None => Ok(Doc::Null),
    }
}

/// `aws.parseArn`
fn parse_arn(alloc: Global, value: &Doc) -> Result<Doc, Stop>
    ensures { Answers stops_for_memory (λ value. value) result (parse_arn value.now) }
{
    match text(value)? {
        Some(text) => Ok(arn::parse_arn(alloc, text)?),
        None => Ok(Doc::Null),
    }
}
