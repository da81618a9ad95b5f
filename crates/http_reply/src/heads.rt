//! The head of a reply.
ghost use Rattle.std.specs.Prelude.{◌≡◌, ◌≤◌, ℕ, [], length, All, IfOk, OnOk};
ghost use Rattle.httparse.specs.Spans.{IsHeaderWithin};
ghost use Rattle.http_reply.specs.Fields.{fields_in};
ghost use Rattle.http_reply.specs.Kinds.{IsWithinLimit};
ghost use Rattle.http_reply.specs.Machine.{JudgesHead, after_head};
ghost use Rattle.http_reply.specs.Outcome.{HasSmallHead};

use crate::kinds::{Kind, kind_of};
use crate::limits::{FIELD_LIMIT, HEAD_LIMIT};
use aws_world::Reply;
use httparse::Status;
use httparse::spans::{EMPTY_HEADER_SPAN, HeaderSpan, parse_response};
use std::alloc::Global;
use texts::{Bytes, List, OutOfMemory, Text};

/// The text of bytes that are Latin-1.
fn latin1(alloc: Global, bytes: &[u8]) -> Result<Text, OutOfMemory>
    ensures { IfOk result (λ text. text ≡ bytes.now) }
{
    let mut text = Text::new(alloc);
    for b in bytes {
        text.push(char::from(*b))?;
    }
    Ok(text)
}

/// The names and values of fields.
fn texts(
    alloc: Global,
    bytes: &[u8],
    fields: &[HeaderSpan],
) -> Result<List<(Text, Text)>, OutOfMemory>
    requires { All (IsHeaderWithin (length bytes.now)) fields.now }
    ensures { IfOk result (λ made. made ≡ fields_in bytes.now fields.now) }
{
    let mut made = List::new(alloc);
    for field in fields {
        let name = latin1(alloc, field.name.of(bytes))?;
        let value = latin1(alloc, field.value.of(bytes))?;
        made.push((name, value))?;
    }
    Ok(made)
}

/// Reads a whole head into the reply, unless it is interim, and answers what follows it.
pub(crate) fn judge_head(
    alloc: Global,
    head_only: bool,
    head: &[u8],
    reply: &mut Reply,
) -> Result<Kind, OutOfMemory>
    requires few { length head.now ≤ HEAD_LIMIT }
    requires small { HasSmallHead reply.old }
    requires no_body { reply.old.body ≡ [] }
    ensures judged { IfOk result (λ kind. (used : ℕ) →
        JudgesHead head_only used head.now (after_head used (length head.now) reply.new kind)) }
    ensures within { IfOk result IsWithinLimit }
    ensures small { OnOk result (HasSmallHead reply.new) }
    ensures no_body { OnOk result (reply.new.body ≡ []) }
{
    let mut spans = [EMPTY_HEADER_SPAN; FIELD_LIMIT];
    let Ok(Status::Complete(found)) = parse_response(head, &mut spans) else {
        return Ok(Kind::Malformed);
    };
    if found.len != head.len() {
        return Ok(Kind::Malformed);
    }
    let (fields, _) = spans.split_at(found.headers);
    let kind = kind_of(head_only, found.code, head, fields);
    if let Kind::Interim = kind {
        return Ok(Kind::Interim);
    }
    *reply = Reply {
        status: found.code,
        headers: texts(alloc, head, fields)?,
        body: Bytes::new(alloc),
    };
    Ok(kind)
}
