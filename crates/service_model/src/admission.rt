//! Which operations can be called.
ghost use Rattle.std.specs.Prelude.{◌≡◌, ◌<◌, ◌&&◌, ◌||◌, ◌↔◌, true, false, IfOk, IfSome, IsTrue, map, length, slice_get, slice_index_or, option_map, option_and_then, bytes_eq};
ghost use Rattle.std.specs.List.{All, AllZip, list_any};
ghost use Rattle.std.specs.Option.{option_copied};
ghost use Rattle.service_model.specs.declared.operation.Refusal.TheVariants as refusal;
ghost use Rattle.service_model.specs.declared.shape.Kind.TheVariants.{Structure};
ghost use Rattle.service_model.specs.declared.shape.ShapeId.{ShapeId as Id};
ghost use Rattle.service_model.specs.Admission.{kind_of, is_stray_json, has_stray_json, is_blob, has_blob_body, is_payload_blob, members_at, shared_argument, IsOther, IsRefusal, IsAdmitted};
ghost use Rattle.service_model.specs.Inside.{shared_at, marked_at, IsFindings};
ghost use Rattle.service_model.specs.Models.{HasParts, IsOfKind};
ghost use Rattle.service_model.specs.Reach.{Reaches, HasPartsBelow};

use crate::arguments::shared_argument;
use crate::metadata::{Metadata, Protocol};
use crate::operations::Row;
use crate::reach::leading_to;
use crate::{Kind, Location, Member, Operation, Refusal, Shape, ShapeId};
use json_doc::{List, OutOfMemory, Text};
use std::alloc::Global;

/// What admission needs to know of each shape.
#[derive(Drop)]
struct Findings {
    /// Whether it leads to a stream of events.
    events: Vec<bool>,
    /// Whether it leads to a JSON document in another place than a header, or that is no string.
    json_values: Vec<bool>,
    /// The argument name that two of its members share, where it is an input.
    shared: Vec<Option<Text>>,
}

/// The operations with their refusals. Each shape is looked at once, however many operations
/// reach it.
pub fn admit_operations(
    alloc: Global,
    metadata: &Metadata,
    shapes: &[Shape],
    rows: Vec<Row>,
) -> Result<List<Operation>, OutOfMemory>
    requires parts { All (HasParts shapes.now) shapes.now }
    requires structures { All (λ row. IfSome row.input (IsOfKind Structure shapes.now) × IfSome row.output (IsOfKind Structure shapes.now)) rows.items }
    ensures { IfOk result (λ operations. AllZip (IsAdmitted metadata.now.protocol shapes.now) rows.items operations) }
{
    let findings = look_at_shapes(alloc, shapes, rows.as_slice())?;
    let mut operations = Vec::with_capacity(alloc, rows.len())?;
    for row in rows {
        operations.push(admitted(alloc, metadata, shapes, &findings, row)?)?;
    }
    Ok(List::from_vec(operations))
}

/// An operation with its refusal.
fn admitted(
    alloc: Global,
    metadata: &Metadata,
    shapes: &[Shape],
    findings: &Findings,
    row: Row,
) -> Result<Operation, OutOfMemory>
    requires { IsFindings shapes.now row findings.now }
    ensures { IfOk result (λ operation. IsAdmitted metadata.now.protocol shapes.now row operation) }
{
    let refusal = refusal(alloc, metadata, shapes, findings, &row)?;
    Ok(Operation {
        name: row.name,
        command: row.command,
        method: row.method,
        uri: row.uri,
        input: row.input,
        output: row.output,
        host_prefix: row.host_prefix,
        unsigned: row.unsigned,
        refusal,
        fixed_params: row.fixed_params,
    })
}

fn look_at_shapes(alloc: Global, shapes: &[Shape], rows: &[Row]) -> Result<Findings, OutOfMemory>
    requires parts { All (HasPartsBelow (length shapes.now)) shapes.now }
    requires inputs { All (λ row. IfSome row.input (λ id. id.0 < length shapes.now)) rows.now }
    ensures { IfOk result (λ findings. All (λ row. IsFindings shapes.now row findings) rows.now) }
{
    let events = leading_to_events(alloc, shapes)?;
    let json_values = leading_to_json(alloc, shapes)?;
    let shared = shared_arguments(alloc, shapes, rows)?;
    Ok(Findings {
        events,
        json_values,
        shared,
    })
}

/// Whether each shape leads to a stream of events.
fn leading_to_events(alloc: Global, shapes: &[Shape]) -> Result<Vec<bool>, OutOfMemory>
    requires { All (HasPartsBelow (length shapes.now)) shapes.now }
    ensures { IfOk result (λ leads. (from : Id) → IsTrue (slice_index_or leads.items from.0 false) ↔ Reaches shapes.now (λ shape. IsTrue shape.events) from) }
{
    let marks = event_marks(alloc, shapes)?;
    let leads = leading_to(alloc, shapes, marks.as_slice())?;
    Ok(leads)
}

/// Whether each shape leads to a JSON document in another place than a header, or that is no
/// string.
fn leading_to_json(alloc: Global, shapes: &[Shape]) -> Result<Vec<bool>, OutOfMemory>
    requires { All (HasPartsBelow (length shapes.now)) shapes.now }
    ensures { IfOk result (λ leads. (from : Id) → IsTrue (slice_index_or leads.items from.0 false) ↔ Reaches shapes.now (λ shape. IsTrue (has_stray_json shapes.now shape)) from) }
{
    let marks = json_value_marks(alloc, shapes)?;
    let leads = leading_to(alloc, shapes, marks.as_slice())?;
    Ok(leads)
}

fn event_marks(alloc: Global, shapes: &[Shape]) -> Result<Vec<bool>, OutOfMemory>
    ensures { IfOk result (λ marks. marks.items ≡ map (λ shape. shape.events) shapes.now) }
{
    let mut marks = Vec::with_capacity(alloc, shapes.len())?;
    for shape in shapes {
        marks.push(shape.events)?;
    }
    Ok(marks)
}

fn json_value_marks(alloc: Global, shapes: &[Shape]) -> Result<Vec<bool>, OutOfMemory>
    ensures { IfOk result (λ marks. marks.items ≡ map (has_stray_json shapes.now) shapes.now) }
{
    let mut marks = Vec::with_capacity(alloc, shapes.len())?;
    for shape in shapes {
        marks.push(has_stray_json(shapes, shape.members.as_slice()))?;
    }
    Ok(marks)
}

/// Whether a member is a JSON document in another place than a header, or no string.
fn has_stray_json(shapes: &[Shape], members: &[Member]) -> bool
    ensures { result ≡ list_any (is_stray_json shapes.now) members.now }
{
    members.iter().any(|member| is_stray_json(shapes, member))
}

fn is_stray_json(shapes: &[Shape], member: &Member) -> bool
    ensures { result ≡ is_stray_json shapes.now member.now }
{
    let is_header_text = matches!(member.location, Some(Location::Header))
        && matches!(kind_of(shapes, member.shape), Some(Kind::Str));
    member.json_value && !is_header_text
}

fn kind_of(shapes: &[Shape], id: ShapeId) -> Option<Kind>
    ensures { result ≡ kind_of shapes.now id }
{
    match shapes.get(id.0 as usize) {
        Some(shape) => Some(shape.kind),
        None => None,
    }
}

/// The argument name that two members share, of each shape that is an input.
fn shared_arguments(
    alloc: Global,
    shapes: &[Shape],
    rows: &[Row],
) -> Result<Vec<Option<Text>>, OutOfMemory>
    requires { All (λ row. IfSome row.input (λ id. id.0 < length shapes.now)) rows.now }
    ensures { IfOk result (λ shared. All (λ row. shared_at shared.items row.input ≡ shared_argument shapes.now (members_at shapes.now row.input)) rows.now) }
{
    let inputs = input_marks(alloc, shapes.len(), rows)?;
    let mut shared = Vec::with_capacity(alloc, shapes.len())?;
    for (at, shape) in shapes.iter().enumerate() {
        shared.push(shared_if(alloc, inputs[at], shapes, shape)?)?;
    }
    Ok(shared)
}

/// The argument name that two members share, if that is looked for.
fn shared_if(
    alloc: Global,
    is_input: bool,
    shapes: &[Shape],
    shape: &Shape,
) -> Result<Option<Text>, OutOfMemory>
    ensures { IfOk result (λ name. is_input ≡ true → name ≡ shared_argument shapes.now shape.now.members) }
{
    if !is_input {
        return Ok(None);
    }
    shared_argument(alloc, shapes, shape.members.as_slice())
}

/// Which of so many shapes are inputs.
fn input_marks(alloc: Global, count: usize, rows: &[Row]) -> Result<Vec<bool>, OutOfMemory>
    requires { All (λ row. IfSome row.input (λ id. id.0 < count)) rows.now }
    ensures size { IfOk result (λ marks. length marks.items ≡ count) }
    ensures marked { IfOk result (λ marks. All (λ row. IfSome row.input (λ id. slice_index_or marks.items id.0 false ≡ true)) rows.now) }
{
    let mut marks = vec![in alloc; false; count]?;
    for row in rows {
        if let Some(id) = row.input {
            marks[id.0 as usize] = true;
        }
    }
    Ok(marks)
}

/// The first rule that keeps an operation from being called.
fn refusal(
    alloc: Global,
    metadata: &Metadata,
    shapes: &[Shape],
    findings: &Findings,
    row: &Row,
) -> Result<Option<Refusal>, OutOfMemory>
    requires { IsFindings shapes.now row.now findings.now }
    ensures { IfOk result (λ answer. IsRefusal metadata.now.protocol shapes.now row.now answer) }
{
    if is_other(metadata.protocol) {
        return Ok(Some(Refusal::Protocol));
    }
    if has_marked(&findings.events, row) {
        return Ok(Some(Refusal::Events));
    }
    if row.is_signed_otherwise {
        return Ok(Some(Refusal::Signature));
    }
    if row.needs_checksum {
        return Ok(Some(Refusal::Checksum));
    }
    if row.needs_discovery {
        return Ok(Some(Refusal::Discovery));
    }
    if has_marked(&findings.json_values, row) {
        return Ok(Some(Refusal::JsonValue));
    }
    if has_blob_body(shapes, row.output) {
        return Ok(Some(Refusal::BlobOutput));
    }
    shared_refusal(alloc, findings, row.input)
}

fn is_other(protocol: Protocol) -> bool
    ensures { IsTrue result ↔ IsOther protocol }
{
    matches!(protocol, Protocol::Other)
}

/// Whether the input or the output is marked.
fn has_marked(marks: &Vec<bool>, row: &Row) -> bool
    ensures { result ≡ (marked_at marks.now.items row.now.input || marked_at marks.now.items row.now.output) }
{
    is_marked(marks, row.input) || is_marked(marks, row.output)
}

/// Whether there is a shape, and it is marked.
fn is_marked(marks: &Vec<bool>, id: Option<ShapeId>) -> bool
    ensures { result ≡ marked_at marks.now.items id }
{
    match id {
        Some(id) => marks.get(id.0 as usize) == Some(&true),
        None => false,
    }
}

/// Whether the body of a reply is bytes.
fn has_blob_body(shapes: &[Shape], output: Option<ShapeId>) -> bool
    ensures { result ≡ has_blob_body shapes.now output }
{
    match structure(shapes, output) {
        Some(shape) => has_blob_payload(shapes, shape),
        None => false,
    }
}

fn structure(shapes: &[Shape], id: Option<ShapeId>) -> Option<&Shape>
    ensures { option_copied result ≡ option_and_then (λ known. slice_get shapes.now known.0) id }
{
    shapes.get(id?.0 as usize)
}

fn has_blob_payload(shapes: &[Shape], shape: &Shape) -> bool
    ensures { result ≡ is_payload_blob shapes.now shape.now shape.now.payload }
{
    let Some(payload) = &shape.payload else {
        return false;
    };
    has_blob(shapes, shape.members.as_slice(), payload)
}

/// Whether a member of this name is bytes.
fn has_blob(shapes: &[Shape], members: &[Member], name: &Text) -> bool
    ensures { result ≡ list_any (λ m. bytes_eq m.name name.now && is_blob (kind_of shapes.now m.shape)) members.now }
{
    for member in members {
        if member.name == *name && is_blob(shapes, member) {
            return true;
        }
    }
    false
}

fn is_blob(shapes: &[Shape], member: &Member) -> bool
    ensures { result ≡ is_blob (kind_of shapes.now member.now.shape) }
{
    matches!(kind_of(shapes, member.shape), Some(Kind::Blob))
}

/// The refusal for the argument name that two members of the input share.
fn shared_refusal(
    alloc: Global,
    findings: &Findings,
    input: Option<ShapeId>,
) -> Result<Option<Refusal>, OutOfMemory>
    ensures { IfOk result (λ answer. answer ≡ option_map refusal.SameArgument (shared_at findings.now.shared.items input)) }
{
    let Some(id) = input else {
        return Ok(None);
    };
    match findings.shared.get(id.0 as usize) {
        Some(Some(name)) => Ok(Some(Refusal::SameArgument(name.copy(alloc)?))),
        _ => Ok(None),
    }
}
