//! Errors that services tell of.
ghost use Rattle.std.specs.Prelude.{◌≡◌, IfOk, IsTrue, option_and_then, option_copied};
ghost use Rattle.json_doc.specs.declared.doc.Doc.{out-Doc};
ghost use Rattle.std.specs.Str.{chars};
ghost use Rattle.texts.specs.Ascii.{is_ascii_text};
ghost use Rattle.resp_parser.specs.Paths.{first_of};
ghost use Rattle.resp_parser.specs.Errors.{IsError, IsMessage, before, behind_last, code_of, cut_code, object_message, rest_code, text_at, text_in, text_view, whole_code};

use crate::ServiceError;
use crate::bodies::{document, text};
use aws_world::{Reply, header};
use json_doc::{Doc, OutOfMemory, Text};
use service_model::Protocol;
use std::alloc::Global;
use texts::around_first;

/// The error that a reply tells of: the retries are the caller's to tell.
pub(crate) fn service_error(
    alloc: Global,
    protocol: Protocol,
    reply: &Reply,
) -> Result<ServiceError, OutOfMemory>
    ensures { IfOk result (IsError protocol reply.now) }
{
    let body = document(alloc, reply.body.as_slice())?;
    Ok(ServiceError {
        code: code_of(alloc, protocol, reply, body.as_ref())?,
        message: message_of(alloc, reply.body.as_slice(), body.as_ref())?,
        status: reply.status,
        retries: None,
    })
}

/// The code, cut; without one it is the status.
fn code_of(
    alloc: Global,
    protocol: Protocol,
    reply: &Reply,
    body: Option<&Doc>,
) -> Result<Text, OutOfMemory>
    ensures { IfOk result (λ code. code ≡ code_of protocol reply.now (option_copied body.entry)) }
{
    match whole_code(protocol, reply, body) {
        Some(code) => Text::from_str(alloc, cut_code(code.as_str())),
        None => {
            let status = reply.status;
            Ok(Text::from_string(format!(in alloc; "{status}")?))
        }
    }
}

/// The code as it stands: in rest-json the header goes before the body.
fn whole_code<'r>(protocol: Protocol, reply: &'r Reply, body: Option<&'r Doc>) -> Option<&'r Text>
    ensures { option_copied result ≡ whole_code protocol reply.now (option_copied body.entry) }
{
    match protocol {
        Protocol::RestJson => either(header(reply, "x-amzn-errortype"), rest_code(body)),
        Protocol::Json => text_at("__type", body),
        Protocol::Other => text_at("__type", body),
    }
}

fn rest_code(body: Option<&Doc>) -> Option<&Text>
    ensures { option_copied result ≡ rest_code (option_copied body.entry) }
{
    let code = either(text_at("code", body), text_at("Code", body));
    either(code, text_at("__type", body))
}

/// The first of two texts, where there is one.
fn either<'t>(first: Option<&'t Text>, second: Option<&'t Text>) -> Option<&'t Text>
    ensures { option_copied result ≡ first_of (option_copied first.entry) (option_copied second.entry) }
{
    match first {
        Some(text) => Some(text),
        None => second,
    }
}

/// The text at a key of what may be no object.
fn text_at<'d>(key: &str, body: Option<&'d Doc>) -> Option<&'d Text>
    requires { IsTrue (is_ascii_text key.now) }
    ensures { option_copied result ≡ text_at key.now (option_copied body.entry) }
{
    match body {
        Some(body) => text_in(key, body),
        None => None,
    }
}

fn text_in<'d>(key: &str, doc: &'d Doc) -> Option<&'d Text>
    requires { IsTrue (is_ascii_text key.now) }
    ensures { option_copied result ≡ text_in key.now doc.now }
{
    match doc {
        Doc::Fields(fields) => written(fields.get(key)),
        Doc::Null => None,
        Doc::Flag(_) => None,
        Doc::Number(_) => None,
        Doc::Str(_) => None,
        Doc::Items(_) => None,
    }
}

/// The text that a value is.
fn written(value: Option<&Doc>) -> Option<&Text>
    ensures { option_copied result ≡ option_and_then (λ value. text_view (out-Doc value)) (option_copied value.entry) }
{
    match value {
        Some(value) => as_text(value),
        None => None,
    }
}

fn as_text(value: &Doc) -> Option<&Text>
    ensures { option_copied result ≡ text_view (out-Doc value.now) }
{
    match value {
        Doc::Str(text) => Some(text),
        Doc::Null => None,
        Doc::Flag(_) => None,
        Doc::Number(_) => None,
        Doc::Items(_) => None,
        Doc::Fields(_) => None,
    }
}

/// A code without what stands behind its first `:` and up to the last `#` before that.
fn cut_code(code: &str) -> &str
    ensures { chars result.now ≡ cut_code (chars code.now) }
{
    behind_last(before_colon(code))
}

fn before_colon(code: &str) -> &str
    ensures { chars result.now ≡ before 58 (chars code.now) }
{
    match around_first(code, ':') {
        Some((front, _)) => front,
        None => code,
    }
}

/// What stands behind the last `#`, or all of it.
#[tactic(auto, using(crate::proofs::Marks::behind_all, crate::proofs::Marks::behind_first, crate::proofs::Marks::is_shorter))]
fn behind_last(code: &str) -> &str
    ensures { chars result.now ≡ behind_last 35 (chars code.now) }
{
    let mut rest = code;
    while let Some((_, behind)) = around_first(rest, '#') {
        rest = behind;
    }
    rest
}

/// The message of an object, else the body where it is UTF-8.
fn message_of(alloc: Global, bytes: &[u8], body: Option<&Doc>) -> Result<Text, OutOfMemory>
    ensures { IfOk result (IsMessage bytes.now (option_copied body.entry)) }
{
    if let Some(Doc::Fields(_)) = body {
        return object_message(alloc, body);
    }
    match text(alloc, bytes)? {
        Some(text) => Ok(text),
        None => Ok(Text::new(alloc)),
    }
}

fn object_message(alloc: Global, body: Option<&Doc>) -> Result<Text, OutOfMemory>
    ensures { IfOk result (λ message. message ≡ object_message (option_copied body.entry)) }
{
    match either(text_at("message", body), text_at("Message", body)) {
        Some(message) => message.copy(alloc),
        None => Ok(Text::new(alloc)),
    }
}
