//! The values of page tokens.
ghost use Rattle.std.specs.Prelude.{◌≡◌, ◌<◌, length, map, if◌then◌else◌, option_map, option_and_then, All, Contains, IfOk, IfSome, IsTrue};
ghost use Rattle.std.specs.Option.{option_copied};
ghost use Rattle.json_doc.specs.declared.doc.Doc.{out-Doc};
ghost use Rattle.json_doc.specs.DecimalValue.{whole};
ghost use Rattle.typed_value.specs.declared.typed.Typed.{out-Typed};
ghost use Rattle.typed_value.specs.declared.typed.Typed.TheVariants as typed;
ghost use Rattle.typed_value.specs.Fits.{with_values};
ghost use Rattle.typed_value.specs.Kinds.{is_string, is_whole, is_boolean, is_list};
ghost use Rattle.typed_value.specs.Places.{IsComplete};
ghost use Rattle.typed_value.specs.Wire.{member_sent_as, items_read, entries_read, structure_read, fields_read, is_scalar, read_of, IsScalarOf};

use crate::Typed;
use crate::kinds::{is_boolean, is_list, is_map, is_string, is_structure, is_whole};
use json_doc::{Decimal, Doc, List, OutOfMemory, Pair, Pairs, Text};
use service_model::{Member, Model, Shape, ShapeId};
use std::alloc::Global;

/// The value of a page token for a shape: a document whose parts have their kinds, with members under
/// the names that are sent. None comes where the document's kind isn't the shape's, or a part's isn't.
#[cycle(reading)]
pub fn from_wire(
    alloc: Global,
    model: &Model,
    shape: ShapeId,
    doc: &Doc,
) -> Result<Option<Typed>, OutOfMemory>
    requires { shape.0 < length model.now.shapes }
    ensures { IfOk result (λ value. value ≡ read_of model.now.shapes doc.now shape) }
{
    let shape = model.shape(shape);
    if shape.document {
        return Ok(None);
    }
    match doc {
        Doc::Str(text) => string_of(alloc, shape, text),
        Doc::Number(n) => Ok(number_of(shape, n)),
        Doc::Flag(flag) => Ok(flag_of(shape, *flag)),
        Doc::Items(items) => items_of(alloc, model, shape, items.as_slice()),
        Doc::Fields(fields) => fields_of(alloc, model, shape, fields),
        Doc::Null => Ok(None),
    }
}

fn string_of(alloc: Global, shape: &Shape, text: &Text) -> Result<Option<Typed>, OutOfMemory>
    ensures { IfOk result (λ value. value ≡ (if is_string shape.now.kind then Some (typed.Text text.now) else None)) }
{
    if is_string(shape.kind) {
        Ok(Some(Typed::Text(text.copy(alloc)?)))
    } else {
        Ok(None)
    }
}

fn number_of(shape: &Shape, n: &Decimal) -> Option<Typed>
    ensures { result ≡ (if is_whole shape.now.kind then option_map typed.Int (whole n.now) else None) }
{
    if !is_whole(shape.kind) {
        return None;
    }
    match n.whole() {
        Some(n) => Some(Typed::Int(n)),
        None => None,
    }
}

fn flag_of(shape: &Shape, flag: bool) -> Option<Typed>
    ensures { result ≡ (if is_boolean shape.now.kind then Some (typed.Flag flag) else None) }
{
    if is_boolean(shape.kind) {
        Some(Typed::Flag(flag))
    } else {
        None
    }
}

#[cycle(reading)]
fn items_of(
    alloc: Global,
    model: &Model,
    shape: &Shape,
    items: &[Doc],
) -> Result<Option<Typed>, OutOfMemory>
    requires { IsComplete model.now.shapes shape.now }
    ensures { IfOk result (λ value. value ≡ (if is_list shape.now.kind
        then option_and_then (items_read (map (read_of model.now.shapes) items.now)) shape.now.item else None)) }
{
    if !is_list(shape.kind) {
        return Ok(None);
    }
    match shape.item {
        Some(item) => read_items(alloc, model, item, items),
        None => Ok(None),
    }
}

#[cycle(reading)]
fn read_items(
    alloc: Global,
    model: &Model,
    item: ShapeId,
    items: &[Doc],
) -> Result<Option<Typed>, OutOfMemory>
    requires { item.0 < length model.now.shapes }
    ensures { IfOk result (λ value. value ≡ items_read (map (read_of model.now.shapes) items.now) item) }
{
    let mut made = List::new(alloc);
    for doc in items {
        match from_wire(alloc, model, item, doc)? {
            Some(value) => made.push(value)?,
            None => return Ok(None),
        }
    }
    Ok(Some(Typed::Items(made)))
}

#[cycle(reading)]
fn fields_of(
    alloc: Global,
    model: &Model,
    shape: &Shape,
    fields: &Pairs<Doc>,
) -> Result<Option<Typed>, OutOfMemory>
    requires { IsComplete model.now.shapes shape.now }
    ensures { IfOk result (λ value. value ≡ fields_read shape.now (with_values (read_of model.now.shapes) fields.now)) }
{
    if is_map(shape.kind) {
        return match shape.item {
            Some(item) => read_entries(alloc, model, item, fields),
            None => Ok(None),
        };
    }
    if is_structure(shape.kind) {
        return read_members(alloc, model, shape.members.as_slice(), fields.as_slice());
    }
    Ok(None)
}

#[cycle(reading)]
fn read_entries(
    alloc: Global,
    model: &Model,
    item: ShapeId,
    fields: &Pairs<Doc>,
) -> Result<Option<Typed>, OutOfMemory>
    requires { item.0 < length model.now.shapes }
    ensures { IfOk result (λ value. value ≡ entries_read (with_values (read_of model.now.shapes) fields.now) item) }
{
    let mut made = Pairs::new(alloc);
    for field in fields.as_slice() {
        match from_wire(alloc, model, item, &field.value)? {
            Some(value) => made.push_new(field.key.copy(alloc)?, value)?,
            None => return Ok(None),
        }
    }
    Ok(Some(Typed::Fields(made)))
}

#[cycle(reading)]
fn read_members(
    alloc: Global,
    model: &Model,
    members: &[Member],
    fields: &[Pair<Doc>],
) -> Result<Option<Typed>, OutOfMemory>
    requires { All (λ m. m.shape.0 < length model.now.shapes) members.now }
    ensures { IfOk result (λ value. value ≡ structure_read members.now (with_values (read_of model.now.shapes) fields.now)) }
{
    let mut made = Pairs::new(alloc);
    for field in fields {
        let Some(member) = member_sent_as(members, &field.key) else {
            return Ok(None);
        };
        match from_wire(alloc, model, member.shape, &field.value)? {
            Some(value) => made.put(member.name.copy(alloc)?, value)?,
            None => return Ok(None),
        }
    }
    Ok(Some(Typed::Fields(made)))
}

/// The first member that is sent under a name.
fn member_sent_as<'m>(members: &'m [Member], wire: &Text) -> Option<&'m Member>
    ensures named { option_copied result ≡ member_sent_as wire.now members.now }
    ensures one { IfSome result (λ m. Contains members.now m.now) }
{
    for member in members {
        if member.wire == *wire {
            return Some(member);
        }
    }
    None
}

/// The document of a scalar.
pub fn to_doc(alloc: Global, value: &Typed) -> Result<Doc, OutOfMemory>
    requires { IsTrue (is_scalar (out-Typed value.now)) }
    ensures { IfOk result (λ doc. IsScalarOf (out-Typed value.now) (out-Doc doc)) }
{
    match value {
        Typed::Text(text) => Ok(Doc::Str(text.copy(alloc)?)),
        Typed::Int(n) => Ok(Doc::Number(Decimal::of(*n))),
        Typed::Number(n) => Ok(Doc::Number(*n)),
        Typed::Flag(flag) => Ok(Doc::Flag(*flag)),
        _ => Ok(Doc::Null),
    }
}
