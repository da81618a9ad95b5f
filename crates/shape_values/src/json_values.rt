//! The values of JSON documents at shapes.
ghost use Rattle.std.specs.Prelude.{◌≡◌, map, IfOk};
ghost use Rattle.std.specs.Option.{option_copied};
ghost use Rattle.json_doc.specs.DecimalText.{decimal_text};
ghost use Rattle.texts.specs.Calls.{Answers};
ghost use Rattle.typed_value.specs.Fits.{with_values};
ghost use Rattle.typed_value.specs.Places.{member_named};
ghost use Rattle.shape_values.specs.Faults.{is_memory, from_path};
ghost use Rattle.shape_values.specs.Instants.{Instants, TellsTimes};
ghost use Rattle.shape_values.specs.JsonValues.{meant, document_value, text_value, number_value, item_value, member_value, items_value, fields_value};
ghost use Rattle.shape_values.specs.Inside.{list_due, object_due};
ghost use Rattle.shape_values.specs.Places.{of_shape};

use crate::kept::{kept_document, kept_fields, kept_items};
use crate::kinds::{is_blob, is_float, is_list, is_map, is_structure, is_timestamp, is_whole};
use crate::paths::{from_path, under_item, under_key};
use crate::place::{Place, shape_at};
use crate::scalars::{here, time_value};
use crate::{ArgFault, ValueKind};
use json_doc::{Decimal, Doc, List, OutOfMemory, Pairs, Text, copy, push_compact};
use service_model::{Kind, Member, Model, Shape, ShapeId};
use std::alloc::Global;
use typed_value::Typed;

/// The value of a document at a shape, or the first value in it that can't stand there. Faults have this
/// path before their own.
pub fn from_json(
    alloc: Global,
    model: &Model,
    shape: ShapeId,
    doc: &Doc,
    path: &Text,
) -> Result<Typed, ArgFault>
    ensures { (instants : Instants) → TellsTimes instants → Answers is_memory (λ value. value) result
        (from_path path.now (document_value instants model.now.shapes (of_shape shape) doc.now)) }
{
    let value = value_of_document(alloc, model, Place::of_shape(shape), doc);
    from_path(alloc, path, value)
}

/// The value of a document where it stands.
#[cycle(reading)]
pub fn value_of_document(
    alloc: Global,
    model: &Model,
    place: Place,
    doc: &Doc,
) -> Result<Typed, ArgFault>
    ensures { (instants : Instants) → TellsTimes instants → Answers is_memory (λ value. value) result
        (document_value instants model.now.shapes place doc.now) }
{
    let Some(shape) = shape_at(model, place.shape) else {
        return Ok(kept_document(alloc, doc)?);
    };
    if place.takes_json(shape) {
        return Ok(Typed::Any(copy(alloc, doc)?));
    }
    if is_float(shape.kind) {
        return Err(here(alloc, ValueKind::Float));
    }
    match doc {
        Doc::Str(text) => text_value(alloc, shape.kind, text),
        Doc::Number(n) => number_value(alloc, shape.kind, n),
        Doc::Items(items) => list_value(alloc, model, shape, items.as_slice()),
        Doc::Fields(fields) => object_value(alloc, model, shape, fields),
        Doc::Null | Doc::Flag(_) => Ok(kept_document(alloc, doc)?),
    }
}

fn text_value(alloc: Global, kind: Kind, text: &Text) -> Result<Typed, ArgFault>
    ensures { (instants : Instants) → TellsTimes instants
        → Answers is_memory (λ value. value) result (text_value instants kind text.now) }
{
    if is_timestamp(kind) {
        return time_value(alloc, text);
    }
    let text = text.copy(alloc)?;
    Ok(if is_blob(kind) {
        Typed::Blob(text.into_bytes())
    } else {
        Typed::Text(text)
    })
}

fn number_value(alloc: Global, kind: Kind, n: &Decimal) -> Result<Typed, ArgFault>
    ensures { (instants : Instants) → TellsTimes instants
        → Answers is_memory (λ value. value) result (number_value instants kind n.now) }
{
    if is_timestamp(kind) {
        return time_value(alloc, &number_text(alloc, n)?);
    }
    match n.whole() {
        Some(n) if is_whole(kind) => Ok(Typed::Int(n)),
        _ => Ok(Typed::Number(*n)),
    }
}

fn number_text(alloc: Global, n: &Decimal) -> Result<Text, OutOfMemory>
    ensures { IfOk result (λ text. text ≡ decimal_text n.now) }
{
    let mut text = Text::new(alloc);
    push_compact(&mut text, &Doc::Number(*n))?;
    Ok(text)
}

/// The value of an array, which is kept as it is where no list is wanted.
#[cycle(reading)]
fn list_value(alloc: Global, model: &Model, shape: &Shape, items: &[Doc]) -> Result<Typed, ArgFault>
    ensures { (instants : Instants) → TellsTimes instants → Answers is_memory (λ value. value) result
        (list_due instants model.now.shapes shape.now items.now) }
{
    if is_list(shape.kind) {
        items_value(alloc, model, shape.item, items)
    } else {
        Ok(Typed::Items(kept_items(alloc, items)?))
    }
}

/// The value of an object, which is kept as it is where neither a map nor a structure is wanted.
#[cycle(reading)]
fn object_value(
    alloc: Global,
    model: &Model,
    shape: &Shape,
    fields: &Pairs<Doc>,
) -> Result<Typed, ArgFault>
    ensures { (instants : Instants) → TellsTimes instants → Answers is_memory (λ value. value) result
        (object_due instants model.now.shapes shape.now fields.now) }
{
    if is_map(shape.kind) {
        entries_value(alloc, model, shape.item, fields)
    } else if is_structure(shape.kind) {
        members_value(alloc, model, shape, fields)
    } else {
        Ok(Typed::Fields(kept_fields(alloc, fields)?))
    }
}

/// The items of a list.
#[cycle(reading)]
fn items_value(
    alloc: Global,
    model: &Model,
    item: Option<ShapeId>,
    items: &[Doc],
) -> Result<Typed, ArgFault>
    ensures { (instants : Instants) → TellsTimes instants → Answers is_memory (λ value. value) result
        (items_value item (map (meant instants model.now.shapes) items.now)) }
{
    let mut made = List::new(alloc);
    for (at, doc) in items.iter().enumerate() {
        let value = item_value(alloc, model, item, doc);
        match under_item(alloc, at, value) {
            Ok(value) => made.push(value)?,
            Err(fault) => return Err(fault),
        }
    }
    Ok(Typed::Items(made))
}

/// An item of a list, or a value of a map.
#[cycle(reading)]
fn item_value(
    alloc: Global,
    model: &Model,
    item: Option<ShapeId>,
    doc: &Doc,
) -> Result<Typed, ArgFault>
    ensures { (instants : Instants) → TellsTimes instants → Answers is_memory (λ value. value) result
        (item_value item (meant instants model.now.shapes doc.now)) }
{
    match item {
        Some(id) => value_of_document(alloc, model, Place::of_shape(id), doc),
        None => Ok(kept_document(alloc, doc)?),
    }
}

/// The entries of a map.
#[cycle(reading)]
fn entries_value(
    alloc: Global,
    model: &Model,
    item: Option<ShapeId>,
    fields: &Pairs<Doc>,
) -> Result<Typed, ArgFault>
    ensures { (instants : Instants) → TellsTimes instants → Answers is_memory (λ value. value) result
        (fields_value (λ p. item_value item p.value) (with_values (meant instants model.now.shapes) fields.now)) }
{
    let mut made = Pairs::with_capacity(alloc, fields.len())?;
    for field in fields.as_slice() {
        let value = item_value(alloc, model, item, &field.value);
        match under_key(alloc, &field.key, value) {
            Ok(value) => made.push_new(field.key.copy(alloc)?, value)?,
            Err(fault) => return Err(fault),
        }
    }
    Ok(Typed::Fields(made))
}

/// The members of a structure.
#[cycle(reading)]
fn members_value(
    alloc: Global,
    model: &Model,
    shape: &Shape,
    fields: &Pairs<Doc>,
) -> Result<Typed, ArgFault>
    ensures { (instants : Instants) → TellsTimes instants → Answers is_memory (λ value. value) result
        (fields_value (λ p. member_value (member_named p.key shape.now.members) p.value) (with_values (meant instants model.now.shapes) fields.now)) }
{
    let mut made = Pairs::with_capacity(alloc, fields.len())?;
    for field in fields.as_slice() {
        let member = member_named(shape.members.as_slice(), &field.key);
        let value = member_value(alloc, model, member, &field.value);
        match under_key(alloc, &field.key, value) {
            Ok(value) => made.push_new(field.key.copy(alloc)?, value)?,
            Err(fault) => return Err(fault),
        }
    }
    Ok(Typed::Fields(made))
}

/// A member; one that the structure doesn't have is kept as it is.
#[cycle(reading)]
fn member_value(
    alloc: Global,
    model: &Model,
    member: Option<&Member>,
    doc: &Doc,
) -> Result<Typed, ArgFault>
    ensures { (instants : Instants) → TellsTimes instants → Answers is_memory (λ value. value) result
        (member_value (option_copied member.entry) (meant instants model.now.shapes doc.now)) }
{
    match member {
        Some(member) => value_of_document(alloc, model, Place::of_member(member), doc),
        None => Ok(kept_document(alloc, doc)?),
    }
}

/// The member with a name.
pub fn member_named<'m>(members: &'m [Member], name: &Text) -> Option<&'m Member>
    ensures { option_copied result ≡ member_named name.now members.now }
{
    for member in members {
        if member.name == *name {
            return Some(member);
        }
    }
    None
}
