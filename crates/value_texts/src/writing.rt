//! The JSON texts of values, written once behind one another: each is that of the value's document, which is
//! never made.
ghost use Rattle.std.specs.Prelude.{◌≡◌, ◌++◌, map, filter, OnOk};
ghost use Rattle.typed_value.specs.Fits.{with_values};
ghost use Rattle.typed_value.specs.declared.typed.Typed.{out-Typed};
ghost use Rattle.json_doc.specs.Compact.{compact_of};
ghost use Rattle.value_texts.specs.Documents.{document_of, scalar_document, moment_document, item_document, fields_of, entry_field, members_document, is_in_body};
ghost use Rattle.value_texts.specs.Quoted.{quoted};
ghost use Rattle.value_texts.specs.Scalars.{base64_text, moment_text};
ghost use Rattle.value_texts.specs.Inside.{spot_field, AreSpots, key_text, fields_text, items_text};
ghost use Rattle.value_texts.specs.WholeNumbers.{whole_document};

use crate::fields::{Spot, given_spots, member_spots};
use crate::json_parts::push_quoted;
use crate::scalars::{base64_text, moment_text};
use crate::slot::{Slot, is_map, shape_at};
use json_doc::{Decimal, Doc, OutOfMemory, Pair, Text, push_compact};
use service_model::{Member, Model, Shape, ShapeId, TimeForm};
use std::alloc::Global;
use time_texts::unix_seconds;
use typed_value::Typed;

/// Puts the members of an input that stand in the body and have values, in the model's order.
pub fn push_members(
    alloc: Global,
    out: &mut Text,
    model: &Model,
    is_json: bool,
    members: &[Member],
    fields: &[Pair<Typed>],
) -> Result<(), OutOfMemory>
    ensures { OnOk result (out.new ≡ out.old ++ compact_of (members_document model.now.shapes (filter (is_in_body is_json) members.now) fields.now)) }
{
    let spots = given_spots(alloc, is_json, members, fields)?;
    out.push('{')?;
    push_spots(alloc, out, model, fields, spots.as_slice())?;
    out.push('}')
}

/// Puts a value that stands in a slot.
#[cycle(writing)]
pub fn push_value(
    alloc: Global,
    out: &mut Text,
    model: &Model,
    slot: Slot,
    value: &Typed,
) -> Result<(), OutOfMemory>
    ensures { OnOk result (out.new ≡ out.old ++ compact_of (document_of model.now.shapes value.now slot)) }
{
    let Some(shape) = shape_at(model, slot.shape) else {
        return out.push_ascii("null");
    };
    match value {
        Typed::Items(items) => {
            out.push('[')?;
            push_items(alloc, out, model, shape.item, items.as_slice())?;
            out.push(']')
        }
        Typed::Fields(fields) => {
            out.push('{')?;
            push_fields(alloc, out, model, shape, fields.as_slice())?;
            out.push('}')
        }
        _ => push_scalar(alloc, out, slot.form(model, TimeForm::Unix), value),
    }
}

/// Puts a value without parts.
fn push_scalar(
    alloc: Global,
    out: &mut Text,
    form: TimeForm,
    value: &Typed,
) -> Result<(), OutOfMemory>
    ensures { OnOk result (out.new ≡ out.old ++ compact_of (scalar_document form (out-Typed value.now))) }
{
    match value {
        Typed::Text(text) => push_quoted(out, text),
        Typed::Int(n) => push_number(out, *n),
        Typed::Number(n) => push_compact(out, &Doc::Number(*n)),
        Typed::Flag(flag) => push_compact(out, &Doc::Flag(*flag)),
        Typed::Blob(bytes) => push_base64(alloc, out, bytes.as_slice()),
        Typed::Moment(moment) => push_moment_json(alloc, out, form, *moment),
        Typed::Any(doc) => push_compact(out, doc),
        _ => out.push_ascii("null"),
    }
}

/// Puts a whole number.
fn push_number(out: &mut Text, n: i64) -> Result<(), OutOfMemory>
    ensures { OnOk result (out.new ≡ out.old ++ compact_of (whole_document n)) }
{
    push_compact(out, &Doc::Number(Decimal::of(n)))
}

/// Puts bytes as a text in base64.
fn push_base64(alloc: Global, out: &mut Text, bytes: &[u8]) -> Result<(), OutOfMemory>
    ensures { OnOk result (out.new ≡ out.old ++ quoted (base64_text bytes.now)) }
{
    let text = base64_text(alloc, bytes)?;
    push_quoted(out, &text)
}

/// Puts a moment: as a number where it is seconds since 1970, else as a text.
fn push_moment_json(
    alloc: Global,
    out: &mut Text,
    form: TimeForm,
    moment: i64,
) -> Result<(), OutOfMemory>
    ensures { OnOk result (out.new ≡ out.old ++ compact_of (moment_document form moment)) }
{
    match form {
        TimeForm::Unix => push_number(out, unix_seconds(moment)),
        TimeForm::Rfc822 | TimeForm::Iso8601 => push_quoted_moment(alloc, out, form, moment),
    }
}

fn push_quoted_moment(
    alloc: Global,
    out: &mut Text,
    form: TimeForm,
    moment: i64,
) -> Result<(), OutOfMemory>
    ensures { OnOk result (out.new ≡ out.old ++ quoted (moment_text form moment)) }
{
    let text = moment_text(alloc, form, moment)?;
    push_quoted(out, &text)
}

/// Puts the items of a list.
#[cycle(writing)]
fn push_items(
    alloc: Global,
    out: &mut Text,
    model: &Model,
    item: Option<ShapeId>,
    items: &[Typed],
) -> Result<(), OutOfMemory>
    ensures { OnOk result (out.new ≡ out.old ++ items_text (map (λ v. compact_of (item_document item (document_of model.now.shapes v))) items.now)) }
{
    let mut before = "";
    for value in items {
        out.push_ascii(before)?;
        push_item(alloc, out, model, item, value)?;
        before = ", ";
    }
    Ok(())
}

/// Puts an item of a list or a value of a map.
#[cycle(writing)]
fn push_item(
    alloc: Global,
    out: &mut Text,
    model: &Model,
    item: Option<ShapeId>,
    value: &Typed,
) -> Result<(), OutOfMemory>
    ensures { OnOk result (out.new ≡ out.old ++ compact_of (item_document item (document_of model.now.shapes value.now))) }
{
    match item {
        Some(id) => push_value(alloc, out, model, Slot::of_shape(id), value),
        None => out.push_ascii("null"),
    }
}

/// Puts the entries of a map or the members of a structure.
#[cycle(writing)]
fn push_fields(
    alloc: Global,
    out: &mut Text,
    model: &Model,
    shape: &Shape,
    fields: &[Pair<Typed>],
) -> Result<(), OutOfMemory>
    ensures { OnOk result (out.new ≡ out.old ++ fields_text (fields_of shape.now (with_values (document_of model.now.shapes) fields.now))) }
{
    if is_map(shape.kind) {
        return push_entries(alloc, out, model, shape.item, fields);
    }
    let spots = member_spots(alloc, shape.members.as_slice(), fields)?;
    push_spots(alloc, out, model, fields, spots.as_slice())
}

#[cycle(writing)]
fn push_entries(
    alloc: Global,
    out: &mut Text,
    model: &Model,
    item: Option<ShapeId>,
    fields: &[Pair<Typed>],
) -> Result<(), OutOfMemory>
    ensures { OnOk result (out.new ≡ out.old ++ fields_text (map (entry_field item) (with_values (document_of model.now.shapes) fields.now))) }
{
    let mut before = "";
    for field in fields {
        out.push_ascii(before)?;
        push_key(out, &field.key)?;
        push_item(alloc, out, model, item, &field.value)?;
        before = ", ";
    }
    Ok(())
}

/// Puts the values that stand at these places, each behind its name.
#[cycle(writing)]
fn push_spots(
    alloc: Global,
    out: &mut Text,
    model: &Model,
    fields: &[Pair<Typed>],
    spots: &[Pair<Spot>],
) -> Result<(), OutOfMemory>
    requires { AreSpots fields.now spots.now }
    ensures { OnOk result (out.new ≡ out.old ++ fields_text (map (spot_field model.now.shapes fields.now) spots.now)) }
{
    let mut before = "";
    for spot in spots {
        out.push_ascii(before)?;
        push_key(out, &spot.key)?;
        push_value(
            alloc,
            out,
            model,
            spot.value.slot,
            &fields[spot.value.at].value,
        )?;
        before = ", ";
    }
    Ok(())
}

/// Puts a key and what stands between it and its value.
fn push_key(out: &mut Text, key: &Text) -> Result<(), OutOfMemory>
    ensures { OnOk result (out.new ≡ out.old ++ key_text key.now) }
{
    push_quoted(out, key)?;
    out.push_ascii(": ")
}
