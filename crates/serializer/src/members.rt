//! The members of an operation's input, and where each is sent.
ghost use Rattle.std.specs.Prelude.{◌≡◌, slice_get, option_and_then};
ghost use Rattle.std.specs.Option.{option_copied};
ghost use Rattle.service_model.specs.Admission.{members_at};
ghost use Rattle.serializer.specs.Members.{is_json, payload_at, is_raw};

use service_model::{Kind, Member, Model, Operation, Protocol, Shape};
use value_texts::{member_named, shape_at};

/// The structure that an operation takes.
fn input<'m>(model: &'m Model, op: &Operation) -> Option<&'m Shape>
    ensures { option_copied result ≡ option_and_then (λ id. slice_get model.now.shapes id.0) op.now.input }
{
    match op.input {
        Some(id) => shape_at(model, id),
        None => None,
    }
}

/// The members of an operation's input.
pub(crate) fn members_of<'m>(model: &'m Model, op: &Operation) -> &'m [Member]
    ensures { result.now ≡ members_at model.now.shapes op.now.input }
{
    match input(model, op) {
        Some(shape) => shape.members.as_slice(),
        None => &[],
    }
}

/// The member that is the whole body, where the input names one.
pub(crate) fn payload_of<'m>(model: &'m Model, op: &Operation) -> Option<&'m Member>
    ensures { option_copied result ≡ payload_at model.now.shapes op.now.input }
{
    let shape = input(model, op)?;
    match &shape.payload {
        Some(name) => member_named(shape.members.as_slice(), name),
        None => None,
    }
}

/// Whether the service's protocol is `json`.
pub(crate) fn is_json(model: &Model) -> bool
    ensures { result ≡ is_json model.now.metadata.protocol }
{
    matches!(model.metadata().protocol, Protocol::Json)
}

/// Whether a payload is sent as its own bytes.
pub(crate) fn is_raw(model: &Model, payload: &Member) -> bool
    ensures { result ≡ is_raw model.now.shapes payload.now }
{
    match shape_at(model, payload.shape) {
        Some(shape) => matches!(shape.kind, Kind::Blob | Kind::Str),
        None => false,
    }
}
