//! Whole replies.
ghost use Rattle.std.specs.Prelude.{◌≡◌, ◌<◌, length, slice_get, Result};
ghost use Rattle.json_doc.specs.declared.doc.Doc.{Doc as Document};
ghost use Rattle.service_model.specs.Kept.{IsOperation};
ghost use Rattle.resp_parser.specs.declared.fault.ReplyFault.{ReplyFault as Fault};
ghost use Rattle.resp_parser.specs.declared.fault.ReplyFault.TheVariants.{OutOfMemory as no_memory};
ghost use Rattle.resp_parser.specs.Inside.{EndsBy, IsFailure, IsTold};
ghost use Rattle.resp_parser.specs.Parsed.{HeadBy, IsParsed, IsParsedHead, OutputBy, OutputOf, RestOutput, is_coded};
ghost use Rattle.resp_parser.specs.Steps.{Comes};

use crate::ReplyFault;
use crate::bodies::object_body;
use crate::body_fault::BodyFault;
use crate::errors::service_error;
use crate::keeping::keep;
use crate::members::{Given, members_of, rest_body};
use crate::paths::shown;
use aws_world::{Reply, header};
use json_doc::{Doc, Pairs};
use service_model::{Model, Operation, Protocol, ShapeId};
use std::alloc::Global;

/// What a reply to an operation of the model gives: the document of its output, or why there is none.
///
/// - A coding of the body goes before the status.
/// - A status of 300 or more is an error of the service.
/// - The path of a fault is that of the first: the body as a whole, then the members in the model's order.
pub fn parse(alloc: Global, model: &Model, op: &Operation, reply: &Reply) -> Result<Doc, ReplyFault>
    requires { IsOperation model.now.shapes op.now }
    // What is answered may come of the reply; what may come, and that is one answer, is answered.
    ensures answer { Comes no_memory (IsParsed model.now op.now reply.now) result }
    ensures only { (due : Result Document Fault) → IsParsed model.now op.now reply.now due
        → Comes no_memory (λ answer. answer ≡ due) result }
{
    parsed(alloc, model, op, reply)
}

fn parsed(alloc: Global, model: &Model, op: &Operation, reply: &Reply) -> Result<Doc, ReplyFault>
    requires { IsOperation model.now.shapes op.now }
    ensures { Comes no_memory (IsParsed model.now op.now reply.now) result }
{
    if is_coded(reply) {
        return Err(ReplyFault::Compressed);
    }
    if reply.status >= 300 {
        return Err(failure(alloc, model.metadata().protocol, reply));
    }
    told(alloc, output(alloc, model, op, reply))
}

/// The error that a reply tells of.
fn failure(alloc: Global, protocol: Protocol, reply: &Reply) -> ReplyFault
    ensures { IsFailure protocol reply.now result }
{
    match service_error(alloc, protocol, reply) {
        Ok(error) => ReplyFault::Service(error),
        Err(_) => ReplyFault::OutOfMemory,
    }
}

/// The same of a reply's head: the members that don't stand in the body, which is not looked at.
pub fn parse_head(
    alloc: Global,
    model: &Model,
    op: &Operation,
    reply: &Reply,
) -> Result<Doc, ReplyFault>
    requires operation { IsOperation model.now.shapes op.now }
    requires good { reply.now.status < 300 }
    ensures answer { Comes no_memory (IsParsedHead model.now op.now reply.now) result }
    ensures only { (due : Result Document Fault) → IsParsedHead model.now op.now reply.now due
        → Comes no_memory (λ answer. answer ≡ due) result }
{
    parsed_head(alloc, model, op, reply)
}

fn parsed_head(
    alloc: Global,
    model: &Model,
    op: &Operation,
    reply: &Reply,
) -> Result<Doc, ReplyFault>
    requires { IsOperation model.now.shapes op.now }
    ensures { Comes no_memory (IsParsedHead model.now op.now reply.now) result }
{
    if is_coded(reply) {
        return Err(ReplyFault::Compressed);
    }
    told(alloc, head_output(alloc, model, op, reply))
}

/// Whether a coding changed the body.
fn is_coded(reply: &Reply) -> bool
    ensures { result ≡ is_coded reply.now }
{
    match header(reply, "content-encoding") {
        None => false,
        Some(coding) => !coding.is("") && !coding.as_str().eq_ignore_ascii_case("identity"),
    }
}

/// The document, or the fault as it is told.
fn told(alloc: Global, output: Result<Doc, BodyFault>) -> Result<Doc, ReplyFault>
    ensures { IsTold output result }
{
    match output {
        Ok(doc) => Ok(doc),
        Err(BodyFault::At(path)) => Err(ReplyFault::BadBody(shown(alloc, &path)?)),
        Err(BodyFault::OutOfMemory) => Err(ReplyFault::OutOfMemory),
    }
}

/// The document of a good reply.
fn output(alloc: Global, model: &Model, op: &Operation, reply: &Reply) -> Result<Doc, BodyFault>
    requires { IsOperation model.now.shapes op.now }
    ensures { EndsBy (λ doc. doc) result (OutputOf
        (λ id. OutputBy model.now.metadata.protocol model.now.shapes id reply.now) op.now.output) }
{
    let Some(id) = op.output else {
        return Ok(Doc::Fields(Pairs::new(alloc)));
    };
    match model.metadata().protocol {
        Protocol::RestJson => rest_output(alloc, model, id, reply),
        Protocol::Json | Protocol::Other => {
            let fields = object_body(alloc, reply.body.as_slice())?;
            keep(alloc, model, id, Doc::Fields(fields))
        }
    }
}

fn rest_output(alloc: Global, model: &Model, id: ShapeId, reply: &Reply) -> Result<Doc, BodyFault>
    requires { id.0 < length model.now.shapes }
    ensures { EndsBy (λ doc. doc) result (RestOutput model.now.shapes (slice_get model.now.shapes id.0) reply.now) }
{
    let shape = model.shape(id);
    let given = Given {
        model,
        shape,
        reply,
    };
    let fields = rest_body(alloc, given)?;
    Ok(Doc::Fields(members_of(alloc, given, fields)?))
}

/// The document of a good reply's head.
fn head_output(
    alloc: Global,
    model: &Model,
    op: &Operation,
    reply: &Reply,
) -> Result<Doc, BodyFault>
    requires { IsOperation model.now.shapes op.now }
    ensures { EndsBy (λ doc. doc) result (OutputOf
        (λ id. HeadBy model.now.metadata.protocol model.now.shapes id reply.now) op.now.output) }
{
    let nothing = Pairs::new(alloc);
    match (op.output, model.metadata().protocol) {
        (Some(id), Protocol::RestJson) => {
            let given = Given {
                model,
                shape: model.shape(id),
                reply,
            };
            Ok(Doc::Fields(members_of(alloc, given, nothing)?))
        }
        _ => Ok(Doc::Fields(nothing)),
    }
}
