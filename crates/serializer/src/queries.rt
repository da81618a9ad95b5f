//! Members in the query.
ghost use Rattle.std.specs.Prelude.{◌≡◌, [], ◌∷◌, ◌++◌, OnOk};
ghost use Rattle.std.specs.List.{flat_map};
ghost use Rattle.service_model.specs.Kept.{item_at};
ghost use Rattle.serializer.specs.Queries.{parameter, item_parameters, value_parameters, entry_parameters, member_parameters, parameters_of};

use json_doc::{List, OutOfMemory, Pair, Text};
use service_model::{Location, Member, Model, ShapeId, TimeForm};
use std::alloc::Global;
use typed_value::Typed;
use uri_texts::{Slashes, escaped};
use value_texts::{Slot, shape_at, text_at, value_of};

/// A query's parameters, each an escaped name and an escaped value.
pub(crate) type Parameters = List<(Text, Text)>;

/// Puts the members that stand in the query and have values, in the model's order.
pub(crate) fn push_parameters(
    alloc: Global,
    out: &mut Parameters,
    model: &Model,
    members: &[Member],
    fields: &[Pair<Typed>],
) -> Result<(), OutOfMemory>
    ensures { OnOk result (out.new ≡ out.old ++ parameters_of model.now.shapes members.now fields.now) }
{
    for member in members {
        if member.location != Some(Location::Querystring) {
            continue;
        }
        if let Some(value) = value_of(fields, &member.name) {
            push_member(alloc, out, model, member, value)?;
        }
    }
    Ok(())
}

/// Puts a member: an entry of a map under its key, an item of a list under the member's name each.
fn push_member(
    alloc: Global,
    out: &mut Parameters,
    model: &Model,
    member: &Member,
    value: &Typed,
) -> Result<(), OutOfMemory>
    ensures { OnOk result (out.new ≡ out.old ++ member_parameters model.now.shapes member.now value.now) }
{
    let slot = Slot::of_member(member);
    match value {
        Typed::Fields(fields) => push_entries(alloc, out, model, slot.shape, fields.as_slice()),
        _ => push_value(alloc, out, model, slot, &member.wire, value),
    }
}

fn push_entries(
    alloc: Global,
    out: &mut Parameters,
    model: &Model,
    map: ShapeId,
    fields: &[Pair<Typed>],
) -> Result<(), OutOfMemory>
    ensures { OnOk result (out.new ≡ out.old ++ flat_map (entry_parameters model.now.shapes (item_at model.now.shapes map)) fields.now) }
{
    let Some(item) = item_of(model, map) else {
        return Ok(());
    };
    for field in fields {
        push_value(
            alloc,
            out,
            model,
            Slot::of_shape(item),
            &field.key,
            &field.value,
        )?;
    }
    Ok(())
}

/// Puts a value under a name, or each item of a list.
fn push_value(
    alloc: Global,
    out: &mut Parameters,
    model: &Model,
    slot: Slot,
    name: &Text,
    value: &Typed,
) -> Result<(), OutOfMemory>
    ensures { OnOk result (out.new ≡ out.old ++ value_parameters model.now.shapes slot name.now value.now) }
{
    match value {
        Typed::Items(items) => push_items(alloc, out, model, slot.shape, name, items.as_slice()),
        _ => push_scalar(alloc, out, model, slot, name, value),
    }
}

fn push_items(
    alloc: Global,
    out: &mut Parameters,
    model: &Model,
    list: ShapeId,
    name: &Text,
    items: &[Typed],
) -> Result<(), OutOfMemory>
    ensures { OnOk result (out.new ≡ out.old ++ flat_map (item_parameters model.now.shapes (item_at model.now.shapes list) name.now) items.now) }
{
    let Some(shape) = item_of(model, list) else {
        return Ok(());
    };
    for item in items {
        push_scalar(alloc, out, model, Slot::of_shape(shape), name, item)?;
    }
    Ok(())
}

fn push_scalar(
    alloc: Global,
    out: &mut Parameters,
    model: &Model,
    slot: Slot,
    name: &Text,
    value: &Typed,
) -> Result<(), OutOfMemory>
    ensures { OnOk result (out.new ≡ out.old ++ parameter model.now.shapes slot name.now value.now ∷ []) }
{
    let text = text_at(alloc, model, TimeForm::Iso8601, slot, value)?;
    let name = escaped(alloc, name.as_str(), Slashes::Escaped)?;
    out.push((name, escaped(alloc, text.as_str(), Slashes::Escaped)?))
}

/// What a list holds, or what stands at the keys of a map.
pub(crate) fn item_of(model: &Model, id: ShapeId) -> Option<ShapeId>
    ensures { result ≡ item_at model.now.shapes id }
{
    match shape_at(model, id) {
        Some(shape) => shape.item,
        None => None,
    }
}
