//! The numbers of shapes, by their names, with what a reference to a shape needs to know of it.
ghost use Rattle.std.specs.Prelude.{◌≡◌, ◌<◌, ◌^◌, IsTrue, IfOk, length, codes};
ghost use Rattle.std.specs.Option.{option_copied};
ghost use Rattle.texts.specs.Ascii.{is_ascii_text};
ghost use Rattle.model_files.specs.declared.fault.ModelFault.TheVariants as fault;
ghost use Rattle.model_files.specs.declared.fault.Place.TheVariants as place;
ghost use Rattle.texts.specs.Calls.{Answers};
ghost use Rattle.model_files.specs.Faults.{IsFault, is_memory};
ghost use Rattle.service_model.specs.Numbering.{value_in, text_if, text_in, kind_of, named_at, item_of, outline_of, names_of, kind_at, item_outline, reference, reference_in, structure_in, string_in};

use crate::choices::kind_named;
use crate::{Kind, ShapeId};
use indexmap::IndexMap;
use json_doc::{Doc, OutOfMemory, Pairs, Text};
use model_files::{ModelFault, Place, ascii_text, copied, object, text_at, wrong};
use std::alloc::Global;

/// What a reference to a shape needs to know before the shape is read. Both are absent where the
/// shape can't be read.
#[derive(Drop)]
pub struct Outline {
    pub kind: Option<Kind>,
    /// The shape that a list's `member` or a map's `value` names.
    pub item: Option<Text>,
}

/// The shapes of a model in their order: a shape's number is its place.
pub type Names = IndexMap<Text, Outline>;

/// Numbers the shapes.
pub fn number_shapes(alloc: Global, shapes: &Pairs<Doc>) -> Result<Names, OutOfMemory>
    ensures { IfOk result (λ names. names.entries ≡ names_of shapes.now) }
{
    let mut names = IndexMap::with_capacity(alloc, shapes.len())?;
    for pair in shapes.as_slice() {
        let outline = outline_of(alloc, &pair.value)?;
        names.insert(pair.key.copy(alloc)?, outline)?;
    }
    Ok(names)
}

#[tactic(auto, unfolding(crate::specs::Numbering::outline_of))]
fn outline_of(alloc: Global, shape: &Doc) -> Result<Outline, OutOfMemory>
    ensures { IfOk result (λ outline. outline ≡ outline_of shape.now) }
{
    let kind = kind_of(shape);
    let item = copied(alloc, item_of(kind, shape))?;
    Ok(Outline { kind, item })
}

/// The shape that a list's `member` or a map's `value` names.
fn item_of(kind: Option<Kind>, shape: &Doc) -> Option<&Text>
    ensures { option_copied result ≡ item_of kind shape.now }
{
    match kind {
        Some(Kind::List) => named_at(shape, "member"),
        Some(Kind::Map) => named_at(shape, "value"),
        _ => None,
    }
}

/// The kind of a shape, where it can be read.
fn kind_of(shape: &Doc) -> Option<Kind>
    ensures { result ≡ kind_of shape.now }
{
    kind_named(text_in(shape, "type")?)
}

/// The shape that is named at a key of a shape.
fn named_at<'a>(shape: &'a Doc, key: &str) -> Option<&'a Text>
    requires { IsTrue (is_ascii_text key.now) }
    ensures { option_copied result ≡ named_at key.now shape.now }
{
    text_in(value_in(shape, key)?, "shape")
}

/// What stands at a key of what may be an object.
#[tactic(auto, unfolding(crate::specs::Numbering::value_in))]
pub fn value_in<'a>(doc: &'a Doc, key: &str) -> Option<&'a Doc>
    requires { IsTrue (is_ascii_text key.now) }
    ensures { option_copied result ≡ value_in key.now doc.now }
{
    match doc {
        Doc::Fields(fields) => fields.get(key),
        _ => None,
    }
}

/// The text at a key of what may be an object.
pub fn text_in<'a>(doc: &'a Doc, key: &str) -> Option<&'a Text>
    requires { IsTrue (is_ascii_text key.now) }
    ensures { option_copied result ≡ text_in key.now doc.now }
{
    text_if(value_in(doc, key)?)
}

/// A document that may be a text.
#[tactic(auto, unfolding(crate::specs::Numbering::text_if))]
fn text_if(doc: &Doc) -> Option<&Text>
    ensures { option_copied result ≡ text_if doc.now }
{
    match doc {
        Doc::Str(text) => Some(text),
        _ => None,
    }
}

/// The shape that an object names at `shape`.
#[tactic(auto, unfolding(crate::specs::Numbering::reference))]
pub fn reference(alloc: Global, names: &Names, fields: &Pairs<Doc>) -> Result<ShapeId, ModelFault>
    requires { length names.now.entries < 2 ^ 32 }
    ensures { Answers is_memory (λ x. x) result (reference names.now.entries fields.now) }
{
    let name = text_at(alloc, fields, "shape")?;
    match names.get_index_of(name) {
        Some(at) => Ok(ShapeId(at as u32)),
        None => Err(unknown(alloc)),
    }
}

/// The fault of a name at `shape` that no shape has.
fn unknown(alloc: Global) -> ModelFault
    ensures { IsFault result (fault.UnknownShape (place.At (codes "shape"))) }
{
    match ascii_text(alloc, "shape") {
        Ok(key) => ModelFault::UnknownShape(Place::At(key)),
        Err(_) => ModelFault::OutOfMemory,
    }
}

/// The shape that what is to be an object names at `shape`.
#[tactic(auto, unfolding(crate::specs::Numbering::reference_in))]
pub fn reference_in(alloc: Global, names: &Names, doc: &Doc) -> Result<ShapeId, ModelFault>
    requires { length names.now.entries < 2 ^ 32 }
    ensures { Answers is_memory (λ x. x) result (reference_in names.now.entries doc.now) }
{
    let fields = object(doc)?;
    reference(alloc, names, fields)
}

/// The structure that what is to be an object names at `shape`.
#[tactic(auto, unfolding(crate::specs::Numbering::structure_in))]
pub fn structure_in(alloc: Global, names: &Names, doc: &Doc) -> Result<ShapeId, ModelFault>
    requires { length names.now.entries < 2 ^ 32 }
    ensures { Answers is_memory (λ x. x) result (structure_in names.now.entries doc.now) }
{
    let id = reference_in(alloc, names, doc)?;
    match kind_at(names, id) {
        Some(Kind::Structure) => Ok(id),
        _ => Err(wrong(alloc, "shape")),
    }
}

/// The string that what is to be an object names at `shape`.
#[tactic(auto, unfolding(crate::specs::Numbering::string_in))]
pub fn string_in(alloc: Global, names: &Names, doc: &Doc) -> Result<ShapeId, ModelFault>
    requires { length names.now.entries < 2 ^ 32 }
    ensures { Answers is_memory (λ x. x) result (string_in names.now.entries doc.now) }
{
    let id = reference_in(alloc, names, doc)?;
    match kind_at(names, id) {
        Some(Kind::Str) => Ok(id),
        _ => Err(wrong(alloc, "shape")),
    }
}

/// The kind of a shape, where it can be read.
pub fn kind_at(names: &Names, id: ShapeId) -> Option<Kind>
    ensures { result ≡ kind_at names.now.entries id }
{
    match names.get_index(id.0 as usize) {
        Some((_, outline)) => outline.kind,
        None => None,
    }
}

/// The outline of what a list holds or a map has at its keys, where it can be read.
pub fn item_outline<'a>(names: &'a Names, outline: &Outline) -> Option<&'a Outline>
    ensures { option_copied result ≡ item_outline names.now.entries outline.now }
{
    match &outline.item {
        Some(name) => names.get(name),
        None => None,
    }
}
