//! What is built of the operations of a model.
ghost use Rattle.std.specs.Prelude.{◌≡◌};
ghost use Rattle.std.specs.Option.{option_copied};
ghost use Rattle.service_model.specs.Admission.{members_at};
ghost use Rattle.aws_main.specs.Finding.{each, Finds};
ghost use Rattle.aws_main.specs.Plain.{is_empty, is_json, is_str, is_string_in, is_list_by, is_list_of, plain_member, plain_output, is_sent_plainly, plain_operation, shape_maybe};

use crate::causes::Unbuilt;
use json_doc::{List, Text};
use service_model::{Kind, Member, Model, Operation, Protocol, Shape, ShapeId};
use std::alloc::Global;

/// A member of an output.
#[derive(Debug, Drop)]
pub struct PlainMember {
    pub name: Text,
    /// Whether it is a list of strings; else it is a string.
    pub is_list: bool,
}

/// An operation without input, which is sent by POST to `/` in the protocol `json`.
#[derive(Debug, Drop)]
pub struct PlainOperation {
    pub name: Text,
    pub target_prefix: Text,
    pub json_version: Text,
    /// The members of the output in the model's order, where there is an output.
    pub output: Option<List<PlainMember>>,
}

/// What is built of an operation of the model, if it is built.
#[tactic(auto, unfolding(crate::specs::Plain::plain_operation))]
pub fn plain_operation(
    alloc: Global,
    model: &Model,
    operation: &Operation,
) -> Result<PlainOperation, Unbuilt>
    ensures { Finds (λ plain. plain) (plain_operation model.now operation.now) result }
{
    if !is_sent_plainly(model, operation) {
        return Err(Unbuilt::NotBuilt);
    }
    let output = plain_output(alloc, model, operation.output)?;
    let metadata = model.metadata();
    Ok(PlainOperation {
        name: operation.name.copy(alloc)?,
        target_prefix: metadata.target_prefix.copy(alloc)?,
        json_version: metadata.json_version.copy(alloc)?,
        output,
    })
}

/// Whether an operation takes no members and is sent by POST to `/` of the endpoint's own host, in
/// the protocol `json`.
#[tactic(auto, unfolding(crate::specs::Plain::is_sent_plainly))]
fn is_sent_plainly(model: &Model, operation: &Operation) -> bool
    ensures { result ≡ is_sent_plainly model.now operation.now }
{
    is_json(model.metadata().protocol)
        && operation.method.is("POST")
        && operation.uri.is("/")
        && operation.host_prefix.is_none()
        && members(model, operation.input).is_empty()
}

fn is_json(protocol: Protocol) -> bool
    ensures { result ≡ is_json protocol }
{
    matches!(protocol, Protocol::Json)
}

/// The members of a structure of the model, where one is named.
fn members<'a>(model: &'a Model, id: Option<ShapeId>) -> &'a [Member]
    ensures { result.now ≡ members_at model.now.shapes id }
{
    match shape(model, id) {
        Some(shape) => shape.members.as_slice(),
        None => &[],
    }
}

/// The members of an output, where there is one.
fn plain_output(
    alloc: Global,
    model: &Model,
    output: Option<ShapeId>,
) -> Result<Option<List<PlainMember>>, Unbuilt>
    ensures { Finds (λ output. output) (plain_output model.now.shapes output) result }
{
    if output.is_none() {
        return Ok(None);
    }
    Ok(Some(plain_members(alloc, model, members(model, output))?))
}

fn plain_members(
    alloc: Global,
    model: &Model,
    members: &[Member],
) -> Result<List<PlainMember>, Unbuilt>
    ensures { Finds (λ plain. plain) (each (plain_member model.now.shapes) members.now) result }
{
    let mut plain = List::new(alloc);
    for member in members {
        plain.push(plain_member(alloc, model, member)?)?;
    }
    Ok(plain)
}

/// A member that stands in the body under its own name and is a string or a list of strings.
#[tactic(auto, unfolding(crate::specs::Plain::plain_member))]
fn plain_member(alloc: Global, model: &Model, member: &Member) -> Result<PlainMember, Unbuilt>
    ensures { Finds (λ plain. plain) (plain_member model.now.shapes member.now) result }
{
    if member.location.is_some() || member.wire != member.name {
        return Err(Unbuilt::NotBuilt);
    }
    Ok(PlainMember {
        name: member.name.copy(alloc)?,
        is_list: is_list(model, member.shape)?,
    })
}

/// Whether a shape is a list of strings; else it must be a string.
#[tactic(auto, unfolding(crate::specs::Plain::is_list_of))]
fn is_list(model: &Model, id: ShapeId) -> Result<bool, Unbuilt>
    ensures { Finds (λ is_list. is_list) (is_list_of model.now.shapes id) result }
{
    match shape(model, Some(id)) {
        Some(found) => is_list_by(found.kind, is_string(shape(model, found.item))),
        None => Err(Unbuilt::NotBuilt),
    }
}

/// Whether values of a kind, which hold strings or something else, are lists of strings; else they
/// must be strings.
fn is_list_by(kind: Kind, holds_strings: bool) -> Result<bool, Unbuilt>
    ensures { Finds (λ is_list. is_list) (is_list_by kind holds_strings) result }
{
    match kind {
        Kind::Str => Ok(false),
        Kind::List => {
            if holds_strings {
                Ok(true)
            } else {
                Err(Unbuilt::NotBuilt)
            }
        }
        _ => Err(Unbuilt::NotBuilt),
    }
}

fn is_string(shape: Option<&Shape>) -> bool
    ensures { result ≡ is_string_in (option_copied shape.entry) }
{
    match shape {
        Some(shape) => is_str(shape.kind),
        None => false,
    }
}

fn is_str(kind: Kind) -> bool
    ensures { result ≡ is_str kind }
{
    matches!(kind, Kind::Str)
}

/// The shape of a number.
fn shape<'a>(model: &'a Model, id: Option<ShapeId>) -> Option<&'a Shape>
    ensures { option_copied result ≡ shape_maybe model.now.shapes id }
{
    match id {
        Some(id) if id.0 < model.shape_count() => Some(model.shape(id)),
        _ => None,
    }
}
