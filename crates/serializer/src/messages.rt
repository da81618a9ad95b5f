//! The message of a value.
ghost use Rattle.std.specs.Prelude.{◌≡◌, ◌∷◌, [], ◌++◌, IsTrue, IfOk, OnOk};
ghost use Rattle.std.specs.Fmt.{decimal};
ghost use Rattle.texts.specs.Ascii.{is_ascii_text};
ghost use Rattle.texts.specs.Calls.{Answers};
ghost use Rattle.typed_value.specs.declared.typed.Typed.{out-Typed};
ghost use Rattle.serializer.specs.Faults.{is_memory};
ghost use Rattle.serializer.specs.Inside.{asked};
ghost use Rattle.serializer.specs.Messages.{encoded, encoded_by, fields_in, path_before, path_pieces, host_pieces, is_usual_port, port_text, base_path, path_of, host_of, query_of, target_of, json_type, json_headers, first_headers, needs_type, with_type, headers_due};

use crate::EncodeFault;
use crate::bodies::{body, has_json_body};
use crate::faults::push_headers;
use crate::header_names::is_among;
use crate::headers::Headers;
use crate::labels::{push_host, push_path};
use crate::members::{is_json, members_of};
use crate::queries::{Parameters, push_parameters};
use crate::request::Request;
use aws_world::Message;
use endpoint_rules::{Endpoint, Scheme};
use json_doc::{List, OutOfMemory, Pair, Text};
use service_model::{Model, Operation};
use std::alloc::Global;
use texts::{around_first, without_last};
use typed_value::Typed;
use uri_texts::{Piece, constants, pieces};

/// The message that an operation sends to an endpoint for a value, by the protocol of its service (botocore's
/// `serialize.py`: `JSONSerializer` and `RestJSONSerializer`), or the first member, in the model's order, that
/// can't be sent.
pub fn message(
    alloc: Global,
    model: &Model,
    op: &Operation,
    value: &Typed,
    endpoint: &Endpoint,
) -> Result<Message, EncodeFault>
    ensures { Answers is_memory (λ m. m) result (encoded model.now op.now value.now endpoint.now) }
{
    let path = path_pieces(alloc, is_json(model), &op.uri)?;
    let host = host_pieces(alloc, op)?;
    let request = Request {
        model,
        op,
        fields: fields_in(value),
        path: path.as_slice(),
        host: host.as_slice(),
    };
    message_of(alloc, &request, endpoint)
}

fn message_of(alloc: Global, request: &Request, endpoint: &Endpoint) -> Result<Message, EncodeFault>
    ensures { Answers is_memory (λ m. m) result (encoded_by (asked request.now) endpoint.now) }
{
    let host = host_of(alloc, request, endpoint)?;
    let headers = headers(alloc, request, &host)?;
    Ok(Message {
        method: request.op.method.copy(alloc)?,
        host,
        path: path_of(alloc, request, endpoint)?,
        query: query_of(alloc, request)?,
        headers,
        body: body(alloc, request.model, request.op, request.fields)?,
    })
}

/// The members of a structure that have values.
fn fields_in(value: &Typed) -> &[Pair<Typed>]
    ensures { result.now ≡ fields_in (out-Typed value.now) }
{
    match value {
        Typed::Fields(fields) => fields.as_slice(),
        _ => &[],
    }
}

/// The pieces of the path. `json` fills no labels in it.
fn path_pieces(alloc: Global, is_json: bool, uri: &Text) -> Result<List<Piece>, OutOfMemory>
    ensures { IfOk result (λ made. made ≡ path_pieces is_json uri.now) }
{
    let path = path_before(alloc, uri)?;
    if !is_json {
        return pieces(alloc, &path);
    }
    let mut plain = List::new(alloc);
    plain.push(Piece::Plain(path))?;
    Ok(plain)
}

/// What stands before the query of a URI.
fn path_before(alloc: Global, uri: &Text) -> Result<Text, OutOfMemory>
    ensures { IfOk result (λ path. path ≡ path_before uri.now) }
{
    match around_first(uri.as_str(), '?') {
        Some((path, _)) => Text::from_str(alloc, path),
        None => uri.copy(alloc),
    }
}

/// The pieces of the host prefix.
fn host_pieces(alloc: Global, op: &Operation) -> Result<List<Piece>, OutOfMemory>
    ensures { IfOk result (λ made. made ≡ host_pieces op.now.host_prefix) }
{
    match &op.host_prefix {
        Some(prefix) => pieces(alloc, prefix),
        None => Ok(List::new(alloc)),
    }
}

/// The host prefix, the endpoint's host, and its port where it isn't the scheme's own.
fn host_of(alloc: Global, request: &Request, endpoint: &Endpoint) -> Result<Text, OutOfMemory>
    ensures { IfOk result (λ host. host ≡ host_of (asked request.now) endpoint.now) }
{
    let mut out = Text::new(alloc);
    let members = members_of(request.model, request.op);
    push_host(
        alloc,
        &mut out,
        request.model,
        members,
        request.fields,
        request.host,
    )?;
    out.push_str(endpoint.host.as_str())?;
    push_port(alloc, &mut out, endpoint)?;
    Ok(out)
}

fn push_port(alloc: Global, out: &mut Text, endpoint: &Endpoint) -> Result<(), OutOfMemory>
    ensures { OnOk result (out.new ≡ out.old ++ port_text endpoint.now) }
{
    if is_usual_port(endpoint.scheme, endpoint.port) {
        return Ok(());
    }
    out.push_ascii(":")?;
    push_number(alloc, out, endpoint.port)
}

fn push_number(alloc: Global, out: &mut Text, n: u16) -> Result<(), OutOfMemory>
    ensures { OnOk result (out.new ≡ out.old ++ decimal n) }
{
    out.push_str(format!(in alloc; "{n}")?.as_str())
}

fn is_usual_port(scheme: Scheme, port: u16) -> bool
    ensures { result ≡ is_usual_port scheme port }
{
    match scheme {
        Scheme::Http => port == 80,
        Scheme::Https => port == 443,
    }
}

/// The endpoint's path without a final `/`, and the operation's behind it.
fn path_of(alloc: Global, request: &Request, endpoint: &Endpoint) -> Result<Text, OutOfMemory>
    ensures { IfOk result (λ path. path ≡ path_of (asked request.now) endpoint.now) }
{
    let mut out = base_path(alloc, &endpoint.path)?;
    let members = members_of(request.model, request.op);
    push_path(
        alloc,
        &mut out,
        request.model,
        members,
        request.fields,
        request.path,
    )?;
    Ok(out)
}

/// A path without a final `/`.
fn base_path(alloc: Global, path: &Text) -> Result<Text, OutOfMemory>
    ensures { IfOk result (λ base. base ≡ base_path path.now) }
{
    match without_last(path.as_str(), '/') {
        Some(front) => Text::from_str(alloc, front),
        None => path.copy(alloc),
    }
}

/// The constants of the operation's URI, and the members that stand in the query.
fn query_of(alloc: Global, request: &Request) -> Result<Parameters, OutOfMemory>
    ensures { IfOk result (λ query. query ≡ query_of (asked request.now)) }
{
    let mut out = constants(alloc, &request.op.uri)?;
    if !is_json(request.model) {
        let members = members_of(request.model, request.op);
        push_parameters(alloc, &mut out, request.model, members, request.fields)?;
    }
    Ok(out)
}

/// The headers, `Host` first.
fn headers(alloc: Global, request: &Request, host: &Text) -> Result<Headers, EncodeFault>
    ensures { Answers is_memory (λ hs. hs) result (headers_due (asked request.now) host.now) }
{
    let mut out = first_headers(alloc, request, host)?;
    push_headers(alloc, &mut out, request)?;
    push_type(alloc, &mut out, request)?;
    Ok(out)
}

/// The headers before those of the members.
fn first_headers(alloc: Global, request: &Request, host: &Text) -> Result<Headers, OutOfMemory>
    ensures { IfOk result (λ hs. hs ≡ first_headers (asked request.now) host.now) }
{
    let mut out = List::new(alloc);
    push_header(alloc, &mut out, "Host", host.copy(alloc)?)?;
    if !is_json(request.model) {
        return Ok(out);
    }
    push_json_headers(alloc, &mut out, request)?;
    Ok(out)
}

/// Puts what `json` says of an operation and of the body.
fn push_json_headers(alloc: Global, out: &mut Headers, request: &Request) -> Result<(), OutOfMemory>
    ensures { OnOk result (out.new ≡ out.old ++ json_headers (asked request.now)) }
{
    push_header(alloc, out, "X-Amz-Target", target_of(alloc, request)?)?;
    push_header(alloc, out, "Content-Type", json_type(alloc, request)?)
}

fn target_of(alloc: Global, request: &Request) -> Result<Text, OutOfMemory>
    ensures { IfOk result (λ target. target ≡ target_of (asked request.now)) }
{
    let mut target = request.model.metadata().target_prefix.copy(alloc)?;
    target.push_ascii(".")?;
    target.push_str(request.op.name.as_str())?;
    Ok(target)
}

fn json_type(alloc: Global, request: &Request) -> Result<Text, OutOfMemory>
    ensures { IfOk result (λ kind. kind ≡ json_type (asked request.now)) }
{
    let mut kind = Text::new(alloc);
    kind.push_ascii("application/x-amz-json-")?;
    kind.push_str(request.model.metadata().json_version.as_str())?;
    Ok(kind)
}

/// By `rest-json` a JSON body has its type, unless a member gave one.
fn push_type(alloc: Global, out: &mut Headers, request: &Request) -> Result<(), OutOfMemory>
    ensures { OnOk result (out.new ≡ with_type (asked request.now) out.old) }
{
    if !needs_type(request, out.as_slice()) {
        return Ok(());
    }
    let mut json = Text::new(alloc);
    json.push_ascii("application/json")?;
    push_header(alloc, out, "Content-Type", json)
}

#[tactic(auto, using(texts::proofs::Texts::chars_ascii))]
fn needs_type(request: &Request, headers: &[(Text, Text)]) -> bool
    ensures { result ≡ needs_type (asked request.now) headers.now }
{
    !is_json(request.model)
        && has_json_body(request.model, request.op)
        && !is_among(headers, "Content-Type")
}

#[tactic(auto, using(texts::proofs::Texts::chars_ascii))]
fn push_header(alloc: Global, out: &mut Headers, name: &str, value: Text) -> Result<(), OutOfMemory>
    requires { IsTrue (is_ascii_text name.now) }
    ensures { OnOk result (out.new ≡ out.old ++ (name.now, value) ∷ []) }
{
    out.push((Text::from_str(alloc, name)?, value))
}
