//! Members that stand in the headers of a reply.
ghost use Rattle.std.specs.Prelude.{◌≡◌, map, encode_utf8_all, IfOk, OnOk, option_map};
ghost use Rattle.std.specs.Str.{chars};
ghost use Rattle.json_doc.specs.declared.doc.Doc as doc;
ghost use Rattle.aws_world.specs.Headers.{header_of};
ghost use Rattle.texts.specs.Blanks.{trimmed};
ghost use Rattle.resp_parser.specs.Inside.{EndsBy};
ghost use Rattle.resp_parser.specs.Headers.{Decodes, HeaderValue, IsHeaderText, IsNumberOr, JsonHeader, headers_behind, parts_of, rest_behind, whole_of, with_first};
ghost use Rattle.resp_parser.specs.Kept.{pair_of};
ghost use Rattle.base64.specs.GeneralPurpose.{decode_of};
ghost use Rattle.base64.specs.Engines.{standard};

use crate::bodies::document;
use crate::body_fault::BodyFault;
use crate::paths::whole;
use crate::values::there;
use aws_world::{Reply, header};
use base64::DecodeAllocError;
use base64::engine::general_purpose::STANDARD;
use json_doc::{Decimal, Doc, List, OutOfMemory, Pairs, Text};
use service_model::{Kind, Member};
use std::alloc::Global;
use texts::{cut, trimmed};

/// The value of a member of this kind in its header, where there is one.
pub(crate) fn header_value(
    alloc: Global,
    kind: Kind,
    member: &Member,
    reply: &Reply,
) -> Result<Option<Doc>, BodyFault>
    ensures { EndsBy (λ value. value) result
        (HeaderValue member.now.json_value kind (header_of member.now.wire reply.now.headers)) }
{
    let Some(text) = header(reply, member.wire.as_str()) else {
        return Ok(None);
    };
    if member.json_value {
        return json_header(alloc, text);
    }
    Ok(Some(text_header(alloc, kind, text)?))
}

/// A header that is a JSON document, in base64. Null is no value.
fn json_header(alloc: Global, text: &Text) -> Result<Option<Doc>, BodyFault>
    ensures { EndsBy (λ value. value) result (JsonHeader text.now) }
{
    match decoded(alloc, text)? {
        Some(value) => Ok(there(Some(value))),
        None => Err(whole(alloc)),
    }
}

/// The document whose text this is, in base64.
fn decoded(alloc: Global, text: &Text) -> Result<Option<Doc>, OutOfMemory>
    ensures { IfOk result (Decodes (decode_of standard (encode_utf8_all text.now))) }
{
    match STANDARD.decode(alloc, text.as_str().as_bytes()) {
        Ok(bytes) => document(alloc, bytes.as_slice()),
        Err(DecodeAllocError::OutOfMemory) => Err(OutOfMemory),
        Err(DecodeAllocError::DecodeError(_)) => Ok(None),
    }
}

/// What a header's text is as a value of this kind.
fn text_header(alloc: Global, kind: Kind, text: &Text) -> Result<Doc, OutOfMemory>
    ensures { IfOk result (IsHeaderText kind text.now) }
{
    match kind {
        Kind::Integer | Kind::Long => number_or_text(alloc, text),
        Kind::Boolean => Ok(Doc::Flag(text.is("true"))),
        Kind::List => Ok(Doc::Items(parts(alloc, text.as_str())?)),
        _ => Ok(Doc::Str(text.copy(alloc)?)),
    }
}

/// The number of a text that is one, else the text.
fn number_or_text(alloc: Global, text: &Text) -> Result<Doc, OutOfMemory>
    ensures { IfOk result (IsNumberOr text.now (whole_of (encode_utf8_all text.now))) }
{
    match whole_of(text.as_str()) {
        Some(number) => Ok(Doc::Number(Decimal::of(number))),
        None => Ok(Doc::Str(text.copy(alloc)?)),
    }
}

/// The number of 64 bits whose text this is, with a `-` or without a sign.
fn whole_of(text: &str) -> Option<i64>
    ensures { result ≡ whole_of text.now }
{
    if text.strip_prefix('+').is_some() {
        return None;
    }
    text.parse::<i64>().ok()
}

/// The parts of a text between commas, each without blanks at its ends.
fn parts(alloc: Global, text: &str) -> Result<List<Doc>, OutOfMemory>
    ensures { IfOk result (λ made. made ≡ map (λ part. doc.Str (trimmed part)) (parts_of (chars text.now))) }
{
    let parts = cut(alloc, text, [','].as_slice())?;
    let mut made = List::new(alloc);
    for part in parts.as_slice() {
        made.push(Doc::Str(Text::from_str(alloc, trimmed(part.as_str()))?))?;
    }
    Ok(made)
}

/// The headers whose names start with a prefix, in any letter case, under the rests of their names. Of two
/// names with one rest the first counts.
pub(crate) fn headers_behind(
    alloc: Global,
    prefix: &Text,
    reply: &Reply,
) -> Result<Pairs<Doc>, OutOfMemory>
    ensures { IfOk result (λ made. made ≡ headers_behind prefix.now reply.now.headers) }
{
    let mut made = Pairs::new(alloc);
    for header in reply.headers.as_slice() {
        if let Some(rest) = rest_behind(prefix.as_str(), header.0.as_str()) {
            add_first(alloc, &mut made, rest, &header.1)?;
        }
    }
    Ok(made)
}

/// Puts an entry at the end, unless there is one with its key.
fn add_first(
    alloc: Global,
    made: &mut Pairs<Doc>,
    key: &str,
    value: &Text,
) -> Result<(), OutOfMemory>
    ensures { OnOk result (made.new ≡ with_first made.old (pair_of (chars key.now) (doc.Str value.now))) }
{
    match made.get(key) {
        Some(_) => Ok(()),
        None => {
            let value = Doc::Str(value.copy(alloc)?);
            made.push_new(Text::from_str(alloc, key)?, value)?;
            Ok(())
        }
    }
}

/// The rest of a name that starts with a prefix, in any letter case.
fn rest_behind<'n>(prefix: &str, name: &'n str) -> Option<&'n str>
    ensures { option_map (λ rest. chars rest.now) result ≡ rest_behind (chars prefix.now) (chars name.now) }
{
    let mut rest = name.chars();
    for expected in prefix.chars() {
        let Some(found) = rest.next() else {
            return None;
        };
        if !expected.eq_ignore_ascii_case(&found) {
            return None;
        }
    }
    Some(rest.as_str())
}
