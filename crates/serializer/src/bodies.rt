//! The body of a message.
ghost use Rattle.std.specs.Prelude.{◌≡◌, false, IfOk};
ghost use Rattle.std.specs.List.{list_any};
ghost use Rattle.std.specs.Option.{option_copied};
ghost use Rattle.typed_value.specs.declared.typed.Typed.{out-Typed};
ghost use Rattle.value_texts.specs.Documents.{document_of, is_in_body};
ghost use Rattle.serializer.specs.Bodies.{has_json_body, json_bytes, object_body, raw_bytes, payload_body, body_of};

use crate::members::{is_json, is_raw, members_of, payload_of};
use json_doc::{Bytes, OutOfMemory, Pair, Text};
use service_model::{Member, Model, Operation};
use std::alloc::Global;
use typed_value::Typed;
use value_texts::{Slot, is_in_body, push_members, push_value, value_of};

/// Whether the body is JSON, by the protocol `rest-json`.
pub(crate) fn has_json_body(model: &Model, op: &Operation) -> bool
    ensures { result ≡ has_json_body model.now.shapes op.now.input }
{
    match payload_of(model, op) {
        Some(payload) => !is_raw(model, payload),
        None => have_body(members_of(model, op)),
    }
}

/// Whether a member stands in the body, by the protocol `rest-json`.
fn have_body(members: &[Member]) -> bool
    ensures { result ≡ list_any (is_in_body false) members.now }
{
    for member in members {
        if is_in_body(false, member) {
            return true;
        }
    }
    false
}

/// The body: a payload, or the members that stand in it as an object.
pub(crate) fn body(
    alloc: Global,
    model: &Model,
    op: &Operation,
    fields: &[Pair<Typed>],
) -> Result<Bytes, OutOfMemory>
    ensures { IfOk result (λ bytes. bytes ≡ body_of model.now op.now.input fields.now) }
{
    let members = members_of(model, op);
    if is_json(model) {
        return object_body(alloc, model, true, members, fields);
    }
    match payload_of(model, op) {
        Some(payload) => payload_body(alloc, model, payload, value_of(fields, &payload.name)),
        None if have_body(members) => object_body(alloc, model, false, members, fields),
        None => Ok(Bytes::new(alloc)),
    }
}

/// The members that stand in the body, as an object.
fn object_body(
    alloc: Global,
    model: &Model,
    is_json: bool,
    members: &[Member],
    fields: &[Pair<Typed>],
) -> Result<Bytes, OutOfMemory>
    ensures { IfOk result (λ bytes. bytes ≡ object_body is_json model.now.shapes members.now fields.now) }
{
    let mut out = Text::new(alloc);
    push_members(alloc, &mut out, model, is_json, members, fields)?;
    Ok(out.into_bytes())
}

/// A payload: its bytes, or its JSON.
fn payload_body(
    alloc: Global,
    model: &Model,
    payload: &Member,
    value: Option<&Typed>,
) -> Result<Bytes, OutOfMemory>
    ensures { IfOk result (λ bytes. bytes ≡ payload_body model.now.shapes payload.now (option_copied value.entry)) }
{
    let is_raw = is_raw(model, payload);
    match value {
        Some(value) if is_raw => raw_bytes(alloc, value),
        Some(value) => json_bytes(alloc, model, Slot::of_member(payload), value),
        None if is_raw => Ok(Bytes::new(alloc)),
        None => Bytes::from_slice(alloc, b"{}"),
    }
}

fn json_bytes(alloc: Global, model: &Model, slot: Slot, value: &Typed) -> Result<Bytes, OutOfMemory>
    ensures { IfOk result (λ bytes. bytes ≡ json_bytes (document_of model.now.shapes value.now slot)) }
{
    let mut out = Text::new(alloc);
    push_value(alloc, &mut out, model, slot, value)?;
    Ok(out.into_bytes())
}

fn raw_bytes(alloc: Global, value: &Typed) -> Result<Bytes, OutOfMemory>
    ensures { IfOk result (λ bytes. bytes ≡ raw_bytes (out-Typed value.now)) }
{
    match value {
        Typed::Text(text) => Bytes::from_slice(alloc, text.as_str().as_bytes()),
        Typed::Blob(bytes) => Bytes::from_slice(alloc, bytes.as_slice()),
        _ => Ok(Bytes::new(alloc)),
    }
}
