//! Members and entries by their names, looked for from a place on: where they stand in one order,
//! each is the next one.
ghost use Rattle.std.specs.Prelude.{◌≡◌, ◌≤◌, length, is_some, IfSome};
ghost use Rattle.service_model.specs.Shapes.{names_in};
ghost use Rattle.texts.specs.Calls.{Finds};
ghost use Rattle.texts.specs.Keys.{IsDistinct};
ghost use Rattle.typed_value.specs.Fits.{has_key};
ghost use Rattle.typed_value.specs.Places.{member_named};

use crate::Typed;
use json_doc::{Pair, Text};
use service_model::Member;

/// The member with a name, and the place behind it.
pub(crate) fn find_member<'m>(
    members: &'m [Member],
    start: usize,
    name: &Text,
) -> Option<(&'m Member, usize)>
    requires { IsDistinct (names_in members.now) }
    ensures { Finds (λ found. found.0.now) result (member_named name.now members.now) }
{
    let (before, behind) = members.split_at(cut_at(start, members.len()));
    match first_member(behind, name) {
        Some((member, after)) => Some((member, before.len() + after)),
        None => first_member(before, name),
    }
}

fn first_member<'m>(members: &'m [Member], name: &Text) -> Option<(&'m Member, usize)>
    ensures first { Finds (λ found. found.0.now) result (member_named name.now members.now) }
    ensures within { IfSome result (λ found. found.1 ≤ length members.now) }
{
    for (at, member) in members.iter().enumerate() {
        if member.name == *name {
            return Some((member, at + 1));
        }
    }
    None
}

/// The place behind the entry with a key, where there is one.
pub(crate) fn find_key(fields: &[Pair<Typed>], start: usize, key: &Text) -> Option<usize>
    ensures { is_some result ≡ has_key fields.now key.now }
{
    let (before, behind) = fields.split_at(cut_at(start, fields.len()));
    match first_key(behind, key) {
        Some(after) => Some(before.len() + after),
        None => first_key(before, key),
    }
}

fn first_key(fields: &[Pair<Typed>], key: &Text) -> Option<usize>
    ensures there { is_some result ≡ has_key fields.now key.now }
    ensures within { IfSome result (λ after. after ≤ length fields.now) }
{
    for (at, field) in fields.iter().enumerate() {
        if field.key == *key {
            return Some(at + 1);
        }
    }
    None
}

/// The place where the search begins: the front where there is nothing behind the place.
fn cut_at(start: usize, length: usize) -> usize
    ensures { result ≤ length }
{
    if start < length { start } else { 0 }
}
