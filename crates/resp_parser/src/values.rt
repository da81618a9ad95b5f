//! The values of an object by the members of a structure: each key is looked for among the members next to the
//! last one that was found, so that an object in the model's order is gone through once.
ghost use Rattle.std.specs.Prelude.{◌≡◌, ◌<◌, ◌≤◌, [], length, slice_get, IfOk, IfSome, IfNone, Some};
ghost use Rattle.service_model.specs.Kept.{TellsWires};
ghost use Rattle.texts.specs.Keys.{keys, value_at, IsDistinct, IsNew};
ghost use Rattle.resp_parser.specs.Kept.{is_sent};
ghost use Rattle.resp_parser.specs.Inside.{put_at, there, values_of, wires_in};

use crate::kinds::is_null;
use json_doc::{Doc, OutOfMemory, Pair, Pairs, Text, copy};
use service_model::{Member, Shape};
use std::alloc::Global;

/// For each member the value that stands under its wire name. Values are moved, but where two members are
/// sent under one name.
pub(crate) fn values_of(
    alloc: Global,
    shape: &Shape,
    fields: Pairs<Doc>,
) -> Result<Vec<Option<Doc>>, OutOfMemory>
    requires { TellsWires shape.now }
    ensures { IfOk result (λ values. values.items ≡ values_of shape.now.members fields) }
{
    let members = shape.members.as_slice();
    if shape.has_own_wires {
        moved_values(alloc, members, fields.into_vec())
    } else {
        copied_values(alloc, members, &fields)
    }
}

fn moved_values(
    alloc: Global,
    members: &[Member],
    fields: Vec<Pair<Doc>>,
) -> Result<Vec<Option<Doc>>, OutOfMemory>
    requires wires { IsDistinct (wires_in members.now) }
    requires keys { IsDistinct (keys fields.items) }
    ensures { IfOk result (λ values. values.items ≡ values_of members.now fields.items) }
{
    let mut values = no_values(alloc, members)?;
    let mut next = 0;
    for Pair { key, value } in fields {
        let place = find_member(members, next, &key);
        put_at(&mut values, place, value);
        if let Some(at) = place {
            next = at + 1;
        }
    }
    Ok(values)
}

/// Puts a value at a place, where there is one.
fn put_at(values: &mut Vec<Option<Doc>>, place: Option<usize>, value: Doc)
    requires { IfSome place (λ at. at < length values.old.items) }
    ensures { values.new.items ≡ put_at place value values.old.items }
{
    if let Some(at) = place {
        values[at] = Some(value);
    }
}

/// No value for any of the members.
fn no_values(alloc: Global, members: &[Member]) -> Result<Vec<Option<Doc>>, OutOfMemory>
    ensures { IfOk result (λ values. values.items ≡ values_of members.now []) }
{
    let mut values = Vec::with_capacity(alloc, members.len())?;
    for _member in members {
        values.push(None)?;
    }
    Ok(values)
}

fn copied_values(
    alloc: Global,
    members: &[Member],
    fields: &Pairs<Doc>,
) -> Result<Vec<Option<Doc>>, OutOfMemory>
    ensures { IfOk result (λ values. values.items ≡ values_of members.now fields.now) }
{
    let mut values = Vec::with_capacity(alloc, members.len())?;
    for member in members {
        values.push(copied_value(alloc, fields, &member.wire)?)?;
    }
    Ok(values)
}

fn copied_value(alloc: Global, fields: &Pairs<Doc>, key: &Text) -> Result<Option<Doc>, OutOfMemory>
    ensures { IfOk result (λ value. value ≡ value_at key.now fields.now) }
{
    match fields.get(key.as_str()) {
        Some(value) => Ok(Some(copy(alloc, value)?)),
        None => Ok(None),
    }
}

/// Where the member with a wire name stands, looked for from a place on and then from the front.
fn find_member(members: &[Member], start: usize, wire: &Text) -> Option<usize>
    ensures found { IfSome result (λ at. slice_get (wires_in members.now) at ≡ Some wire.now) }
    ensures within { IfSome result (λ at. at < length members.now) }
    ensures none { IfNone result (IsNew wire.now (wires_in members.now)) }
{
    let (before, behind) = members.split_at(cut_at(start, members.len()));
    match first_member(behind, wire) {
        Some(at) => Some(before.len() + at),
        None => first_member(before, wire),
    }
}

fn first_member(members: &[Member], wire: &Text) -> Option<usize>
    ensures found { IfSome result (λ at. slice_get (wires_in members.now) at ≡ Some wire.now) }
    ensures within { IfSome result (λ at. at < length members.now) }
    ensures none { IfNone result (IsNew wire.now (wires_in members.now)) }
{
    for (at, member) in members.iter().enumerate() {
        if member.wire == *wire {
            return Some(at);
        }
    }
    None
}

/// The place where the search begins: the front where there is nothing behind the place.
fn cut_at(start: usize, length: usize) -> usize
    ensures { result ≤ length }
{
    if start < length { start } else { 0 }
}

/// Whether a member is sent under a name.
pub(crate) fn is_sent(members: &[Member], wire: &Text) -> bool
    ensures { result ≡ is_sent members.now wire.now }
{
    members.iter().any(|member| member.wire == *wire)
}

/// A value, unless it is null.
pub(crate) fn there(value: Option<Doc>) -> Option<Doc>
    ensures { result ≡ there value }
{
    match value {
        Some(value) if is_null(&value) => None,
        other => other,
    }
}
