//! The values of texts at shapes: JSON, shorthand, or the text itself.
ghost use Rattle.std.specs.Prelude.{◌≡◌, Ok};
ghost use Rattle.texts.specs.Blanks.{is_blank, without_first_blanks};
ghost use Rattle.shorthand.specs.Grammar.{begins_with};
ghost use Rattle.shape_values.specs.Faults.{UnlessMemory};
ghost use Rattle.shape_values.specs.Instants.{Instants, TellsTimes};
ghost use Rattle.shape_values.specs.TextValues.{IsDocument, IsJsonValue, IsAnyDocument, IsTree, IsShortValue, IsObjectValue, IsTextValue, IsElement, IsListValue, IsSoleValue};

use crate::json_values::value_of_document;
use crate::kinds::{is_list, is_map, is_structure};
use crate::paths::under_item;
use crate::place::{Place, holds_lists, shape_at};
use crate::scalars::{here, scalar_of};
use crate::short_values::value_of_short;
use crate::{ArgFault, ValueKind};
use json_doc::{Doc, ReadFault, read};
use service_model::{Model, Shape, ShapeId};
use shorthand::{Short, ShortFault, shorthand};
use std::alloc::Global;
use texts::{List, Text, without_first};
use typed_value::Typed;

/// The value of one text where it stands, which is no list.
pub fn value_of_text(
    alloc: Global,
    model: &Model,
    place: Place,
    text: Text,
) -> Result<Typed, ArgFault>
    ensures { (instants : Instants) → TellsTimes instants → UnlessMemory (IsTextValue instants model.now.shapes place text) result }
{
    let Some(shape) = shape_at(model, place.shape) else {
        return Ok(Typed::Text(text));
    };
    if place.takes_json(shape) {
        return any_document(alloc, &text);
    }
    if is_structure(shape.kind) || is_map(shape.kind) {
        return object_value(alloc, model, place, &text);
    }
    if is_list(shape.kind) {
        return Err(here(alloc, ValueKind::NeedsJson));
    }
    scalar_of(alloc, shape.kind, text)
}

/// The value of one text where a list stands.
pub fn value_of_sole(
    alloc: Global,
    model: &Model,
    place: Place,
    shape: &Shape,
    text: Text,
) -> Result<Typed, ArgFault>
    ensures { (instants : Instants) → TellsTimes instants → UnlessMemory (IsSoleValue instants model.now.shapes place shape.now text) result }
{
    if begins_list(&text) {
        return value_of_json(alloc, model, place, &text);
    }
    let mut texts = List::new(alloc);
    texts.push(text)?;
    value_of_list(alloc, model, shape, texts.into_vec())
}

fn begins_list(text: &Text) -> bool
    ensures { result ≡ begins_with 91 text.now }
{
    without_first(text.as_str(), '[').is_some()
}

/// The value of texts where a list stands, each of which is an element.
pub fn value_of_list(
    alloc: Global,
    model: &Model,
    shape: &Shape,
    texts: Vec<Text>,
) -> Result<Typed, ArgFault>
    ensures { (instants : Instants) → TellsTimes instants → UnlessMemory (IsListValue instants model.now.shapes shape.now texts.items) result }
{
    if holds_lists(model, shape) {
        return Err(here(alloc, ValueKind::NeedsJson));
    }
    let mut made = List::new(alloc);
    for text in texts {
        let value = element_value(alloc, model, shape.item, text);
        match under_item(alloc, made.len(), value) {
            Ok(value) => made.push(value)?,
            Err(fault) => return Err(fault),
        }
    }
    Ok(Typed::Items(made))
}

fn element_value(
    alloc: Global,
    model: &Model,
    item: Option<ShapeId>,
    text: Text,
) -> Result<Typed, ArgFault>
    ensures { (instants : Instants) → TellsTimes instants → UnlessMemory (IsElement instants model.now.shapes item text) result }
{
    match item {
        Some(id) => value_of_text(alloc, model, Place::of_shape(id), text),
        None => Ok(Typed::Text(text)),
    }
}

/// The value of a text at a structure or a map.
fn object_value(alloc: Global, model: &Model, place: Place, text: &Text) -> Result<Typed, ArgFault>
    ensures { (instants : Instants) → TellsTimes instants → UnlessMemory (IsObjectValue instants model.now.shapes place text.now) result }
{
    if begins_object(text) {
        value_of_json(alloc, model, place, text)
    } else {
        shorthand_value(alloc, model, place, text)
    }
}

/// Whether a text begins with a brace behind blanks.
fn begins_object(text: &Text) -> bool
    ensures { result ≡ begins_with 123 (without_first_blanks text.now) }
{
    for c in text.as_str().chars() {
        if !is_blank(c) {
            return c == '{';
        }
    }
    false
}

fn is_blank(c: char) -> bool
    ensures { result ≡ is_blank c }
{
    c == ' ' || c == '\t'
}

/// The value of a JSON text where it stands.
pub fn value_of_json(
    alloc: Global,
    model: &Model,
    place: Place,
    text: &Text,
) -> Result<Typed, ArgFault>
    ensures { (instants : Instants) → TellsTimes instants → UnlessMemory (IsJsonValue instants model.now.shapes place text.now) result }
{
    let doc = document_in(alloc, text)?;
    value_of_document(alloc, model, place, &doc)
}

/// The document of a JSON text.
pub fn document_in(alloc: Global, text: &Text) -> Result<Doc, ArgFault>
    ensures { UnlessMemory (IsDocument text.now) result }
{
    match read(alloc, text.as_str().as_bytes()) {
        Ok(doc) => Ok(doc),
        Err(ReadFault::Syntax(at)) => Err(here(alloc, ValueKind::Json(at))),
        Err(ReadFault::TooDeep(at)) => Err(here(alloc, ValueKind::Json(at))),
        Err(ReadFault::NumberTooWide(at)) => Err(here(alloc, ValueKind::Json(at))),
        Err(ReadFault::OutOfMemory) => Err(ArgFault::OutOfMemory),
    }
}

/// Any document, which a text is.
fn any_document(alloc: Global, text: &Text) -> Result<Typed, ArgFault>
    ensures { UnlessMemory (IsAnyDocument text.now) result }
{
    match document_in(alloc, text) {
        Ok(doc) => Ok(Typed::Any(doc)),
        Err(ArgFault::OutOfMemory) => Err(ArgFault::OutOfMemory),
        Err(_) => Err(here(alloc, ValueKind::NeedsJson)),
    }
}

/// The value of a shorthand text where it stands.
fn shorthand_value(
    alloc: Global,
    model: &Model,
    place: Place,
    text: &Text,
) -> Result<Typed, ArgFault>
    ensures { (instants : Instants) → TellsTimes instants → UnlessMemory (IsShortValue instants model.now.shapes place text.now) result }
{
    let tree = tree_of(alloc, text)?;
    value_of_short(alloc, model, place, &tree)
}

fn tree_of(alloc: Global, text: &Text) -> Result<Short, ArgFault>
    ensures { UnlessMemory (IsTree text.now) result }
{
    match shorthand(alloc, text) {
        Ok(tree) => Ok(tree),
        Err(ShortFault::At(at)) => Err(here(alloc, ValueKind::Shorthand(at))),
        Err(ShortFault::OutOfMemory) => Err(ArgFault::OutOfMemory),
    }
}
