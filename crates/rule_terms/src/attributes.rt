//! The part of a value at a path.
ghost use Rattle.std.specs.Prelude.{◌≡◌, IfOk};
ghost use Rattle.std.specs.Option.{option_copied};
ghost use Rattle.std.specs.Str.{chars};
ghost use Rattle.texts.specs.Calls.{Finds};
ghost use Rattle.rule_terms.specs.Attributes.{attribute_of, step_of, holder_of, member_of, item_of, indexed, index_of};

use crate::characters::{are_digits, is_empty};
use json_doc::Doc;
use std::alloc::Global;
use texts::{OutOfMemory, around_first, cut, without_last};

/// What stands at a path in a value: names joined by dots, each perhaps with an index in brackets
/// behind it; the first may be an index alone.
pub fn attribute<'a>(
    alloc: Global,
    value: &'a Doc,
    path: &str,
) -> Result<Option<&'a Doc>, OutOfMemory>
    ensures { IfOk result (λ found. option_copied found ≡ attribute_of (chars path.now) value.now) }
{
    let parts = cut(alloc, path, ['.'].as_slice())?;
    let mut found = value;
    for (at, part) in parts.as_slice().iter().enumerate() {
        match step(found, part.as_str(), at == 0) {
            Some(value) => found = value,
            None => return Ok(None),
        }
    }
    Ok(Some(found))
}

/// What stands at one part of a path.
fn step<'a>(value: &'a Doc, part: &str, is_first: bool) -> Option<&'a Doc>
    ensures { option_copied result ≡ step_of is_first (chars part.now) value.now }
{
    match indexed(part) {
        Some((name, index)) => item(holder(value, name, is_first)?, index),
        None => member(value, part),
    }
}

/// What an index is looked up in: in the first part of a path perhaps the value itself.
fn holder<'a>(value: &'a Doc, name: &str, is_first: bool) -> Option<&'a Doc>
    ensures { option_copied result ≡ holder_of is_first (chars name.now) value.now }
{
    if is_first && is_empty(name) {
        Some(value)
    } else {
        member(value, name)
    }
}

/// The value at a key. What is no object has none.
pub fn member<'a>(value: &'a Doc, key: &str) -> Option<&'a Doc>
    ensures { option_copied result ≡ member_of (chars key.now) value.now }
{
    match value {
        Doc::Fields(fields) => fields.get(key),
        _ => None,
    }
}

/// The item at an index. What is no list has none.
fn item(value: &Doc, index: usize) -> Option<&Doc>
    ensures { option_copied result ≡ item_of index value.now }
{
    match value {
        Doc::Items(items) => items.get(index),
        _ => None,
    }
}

/// The name and the index of a part that ends with an index in brackets.
fn indexed(part: &str) -> Option<(&str, usize)>
    ensures { Finds (λ found. (chars found.0.now, found.1)) result (indexed (chars part.now)) }
{
    let (name, behind) = around_first(part, '[')?;
    let index = index_of(without_last(behind, ']')?)?;
    Some((name, index))
}

/// The number of these digits. One that no list reaches is the greatest.
fn index_of(digits: &str) -> Option<usize>
    ensures { result ≡ index_of (chars digits.now) }
{
    if !are_digits(digits) {
        return None;
    }
    match digits.parse::<usize>() {
        Ok(index) => Some(index),
        Err(_) => Some(usize::MAX),
    }
}
