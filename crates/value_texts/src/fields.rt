//! Where the values of members stand among the fields of a value.
ghost use Rattle.std.specs.Prelude.{◌≡◌, ◌<◌, [], map, filter, List, length, get_or, IfSome, IfNone, IfOk, OnOk, Some, None};
ghost use Rattle.std.specs.List.{flat_map};
ghost use Rattle.service_model.specs.declared.shape.Shape.{Shape};
ghost use Rattle.json_doc.specs.Grammar.{put_all};
ghost use Rattle.typed_value.specs.Fits.{with_values};
ghost use Rattle.typed_value.specs.Places.{member_named};
ghost use Rattle.value_texts.specs.Documents.{document_of, given_fields, member_field, is_in_body};
ghost use Rattle.std.specs.Option.{option_copied};
ghost use Rattle.texts.specs.Keys.{put, value_at};
ghost use Rattle.value_texts.specs.Inside.{AreSpots, spot_of, spot_field, no_field};

use crate::slot::Slot;
use json_doc::{OutOfMemory, Pair, Pairs, Text};
use service_model::Member;
use std::alloc::Global;
use typed_value::Typed;

/// Where the value of a member stands.
#[derive(Clone, Copy, Debug)]
pub struct Spot {
    /// The place among the fields.
    pub(crate) at: usize,
    pub(crate) slot: Slot,
}

/// The value of a member, where it has one.
pub fn value_of<'v>(fields: &'v [Pair<Typed>], name: &Text) -> Option<&'v Typed>
    ensures { option_copied result ≡ value_at name.now fields.now }
{
    for field in fields {
        if field.key == *name {
            return Some(&field.value);
        }
    }
    None
}

/// Whether a member stands in the body's object: by `json` each does, by `rest-json` those without a
/// location.
pub fn is_in_body(is_json: bool, member: &Member) -> bool
    ensures { result ≡ is_in_body is_json member.now }
{
    is_json || member.location.is_none()
}

/// The members of a body that have values, in the model's order, under the names that are sent.
pub(crate) fn given_spots(
    alloc: Global,
    is_json: bool,
    members: &[Member],
    fields: &[Pair<Typed>],
) -> Result<Pairs<Spot>, OutOfMemory>
    ensures within { IfOk result (AreSpots fields.now) }
    ensures values { IfOk result (λ spots. (shapes : List Shape) → map (spot_field shapes fields.now) spots
        ≡ put_all [] (given_fields shapes (filter (is_in_body is_json) members.now) fields.now)) }
{
    let mut spots = Pairs::with_capacity(alloc, fields.len())?;
    for member in members {
        if !is_in_body(is_json, member) {
            continue;
        }
        let Some(at) = place_of(fields, &member.name) else {
            continue;
        };
        put_spot(alloc, &mut spots, at, member)?;
    }
    Ok(spots)
}

/// The fields of a structure in their order, under the names that are sent.
pub(crate) fn member_spots(
    alloc: Global,
    members: &[Member],
    fields: &[Pair<Typed>],
) -> Result<Pairs<Spot>, OutOfMemory>
    ensures within { IfOk result (AreSpots fields.now) }
    ensures values { IfOk result (λ spots. (shapes : List Shape) → map (spot_field shapes fields.now) spots
        ≡ put_all [] (flat_map (member_field members.now) (with_values (document_of shapes) fields.now))) }
{
    let mut spots = Pairs::with_capacity(alloc, fields.len())?;
    for (at, field) in fields.iter().enumerate() {
        let Some(member) = member_named(members, &field.key) else {
            continue;
        };
        put_spot(alloc, &mut spots, at, member)?;
    }
    Ok(spots)
}

/// Puts the place of a member's value under the name that is sent.
fn put_spot(
    alloc: Global,
    spots: &mut Pairs<Spot>,
    at: usize,
    member: &Member,
) -> Result<(), OutOfMemory>
    ensures { OnOk result (spots.new ≡ put spots.old member.now.wire (spot_of at member.now)) }
{
    let slot = Slot::of_member(member);
    spots.put(member.wire.copy(alloc)?, Spot { at, slot })
}

/// The place of the field with a name.
fn place_of(fields: &[Pair<Typed>], name: &Text) -> Option<usize>
    ensures within { IfSome result (λ at. at < length fields.now) }
    ensures there { IfSome result (λ at. value_at name.now fields.now ≡ Some (get_or fields.now at no_field).value) }
    ensures none { IfNone result (value_at name.now fields.now ≡ None) }
{
    for (at, field) in fields.iter().enumerate() {
        if field.key == *name {
            return Some(at);
        }
    }
    None
}

/// The member with a name.
pub fn member_named<'m>(members: &'m [Member], name: &Text) -> Option<&'m Member>
    ensures { option_copied result ≡ member_named name.now members.now }
{
    for member in members {
        if member.name == *name {
            return Some(member);
        }
    }
    None
}
