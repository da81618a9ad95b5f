//! Bodies as documents and texts.
ghost use Rattle.std.specs.Prelude.{◌≡◌, ◌||◌, if◌then◌else◌, ℕ, List, [], Option, Some, None, IfOk};
ghost use Rattle.json_doc.specs.declared.doc.Doc as doc;
ghost use Rattle.resp_parser.specs.Bodies.{DocumentOf, IsPayload, JsonPayload, ObjectBody, TextOf, or_whole, string_if};
ghost use Rattle.resp_parser.specs.Inside.{EndsBy};
ghost use Rattle.resp_parser.specs.Kinds.{is_map, is_structure};

use crate::body_fault::BodyFault;
use crate::kinds::{has_kind, is_map, is_string, is_structure};
use crate::paths::whole;
use json_doc::{Doc, OutOfMemory, Pairs, ReadFault, Text, read};
use service_model::Shape;
use std::alloc::Global;
use std::str;

/// The document of some bytes, where they are one.
pub(crate) fn document(alloc: Global, bytes: &[u8]) -> Result<Option<Doc>, OutOfMemory>
    ensures { IfOk result (DocumentOf bytes.now) }
{
    match read(alloc, bytes) {
        Ok(doc) => Ok(Some(doc)),
        Err(ReadFault::OutOfMemory) => Err(OutOfMemory),
        Err(ReadFault::Syntax(_)) => Ok(None),
        Err(ReadFault::TooDeep(_)) => Ok(None),
        Err(ReadFault::NumberTooWide(_)) => Ok(None),
    }
}

/// The text of some bytes, where they are UTF-8.
pub(crate) fn text(alloc: Global, bytes: &[u8]) -> Result<Option<Text>, OutOfMemory>
    ensures { IfOk result (TextOf bytes.now) }
{
    match str::from_utf8(bytes) {
        Ok(text) => Ok(Some(Text::from_str(alloc, text)?)),
        Err(_) => Ok(None),
    }
}

/// A body where an object is due. An empty one is the empty object.
pub(crate) fn object_body(alloc: Global, bytes: &[u8]) -> Result<Pairs<Doc>, BodyFault>
    ensures { EndsBy (λ fields. fields) result (ObjectBody bytes.now) }
{
    if bytes.is_empty() {
        return Ok(Pairs::new(alloc));
    }
    match document(alloc, bytes)? {
        Some(Doc::Fields(fields)) => Ok(fields),
        _ => Err(whole(alloc)),
    }
}

/// The body as the value of a payload of this shape.
pub(crate) fn payload(alloc: Global, shape: &Shape, bytes: &[u8]) -> Result<Doc, BodyFault>
    ensures { EndsBy (λ value. value) result (IsPayload shape.now bytes.now) }
{
    let value = if is_string(shape.kind) {
        text_payload(alloc, bytes)?
    } else {
        json_payload(alloc, shape, bytes)?
    };
    value.ok_or(whole(alloc))
}

/// A string payload is the body as it is.
fn text_payload(alloc: Global, bytes: &[u8]) -> Result<Option<Doc>, OutOfMemory>
    ensures { IfOk result (λ value. (t : Option (List ℕ)) × TextOf bytes.now t × (value ≡ string_if t)) }
{
    match text(alloc, bytes)? {
        Some(text) => Ok(Some(Doc::Str(text))),
        None => Ok(None),
    }
}

/// Another payload is read as JSON, and has the shape's kind.
fn json_payload(alloc: Global, shape: &Shape, bytes: &[u8]) -> Result<Option<Doc>, OutOfMemory>
    ensures { IfOk result (λ value. JsonPayload shape.now bytes.now (or_whole value)) }
{
    if bytes.is_empty() {
        return Ok(empty_payload(alloc, shape));
    }
    match document(alloc, bytes)? {
        Some(value) if has_kind(shape, &value) => Ok(Some(value)),
        _ => Ok(None),
    }
}

/// An empty body is the empty object of a structure or map, and nothing else.
fn empty_payload(alloc: Global, shape: &Shape) -> Option<Doc>
    ensures { result ≡ (if is_structure shape.now.kind || is_map shape.now.kind then Some (doc.Fields []) else None) }
{
    if is_structure(shape.kind) || is_map(shape.kind) {
        Some(Doc::Fields(Pairs::new(alloc)))
    } else {
        None
    }
}
