//! What a head says of the body.
ghost use Rattle.std.specs.Prelude.{◌≡◌, ◌↔◌, ◌^◌, ◌<◌, length, All, codes, Option, Some, None, IsNone, IfSome, if◌then◌else◌, ◌&&◌, nat_lt};
ghost use Rattle.std.specs.List.{list_all};
ghost use Rattle.std.specs.Char.{is_ascii_digit};
ghost use Rattle.std.specs.Str.Parse.{digits_value};
ghost use Rattle.httparse.specs.Spans.{IsHeaderWithin};
ghost use Rattle.aws_world.specs.Headers.{named};
ghost use Rattle.http_reply.specs.Fields.{fields_in};
ghost use Rattle.http_reply.specs.Kinds.{kind_of, kind_by_length, kind_by_number, is_length, IsWithinLimit};

use crate::fields::{are_chunked, are_copies, first_named};
use crate::limits::BODY_LIMIT;
use httparse::spans::HeaderSpan;

/// What follows a head (RFC 9112, section 6.3).
#[derive(Clone, Copy, Debug, PartialEq, Eq)]
pub enum Kind {
    /// Another head, since this one is interim.
    Interim,
    NoBody,
    Chunked,
    /// A body of so many bytes.
    Fixed(usize),
    /// A body that lasts until the peer ends.
    ToEnd,
    /// The fields contradict each other or the grammar.
    Malformed,
    /// A body that passes the limit.
    TooLarge,
}

/// By the method, the status and the fields of the head.
pub(crate) fn kind_of(head_only: bool, status: u16, bytes: &[u8], fields: &[HeaderSpan]) -> Kind
    requires { All (IsHeaderWithin (length bytes.now)) fields.now }
    ensures kind { result ≡ kind_of head_only status (fields_in bytes.now fields.now) }
    ensures within { IsWithinLimit result }
{
    if 100 <= status && status < 200 {
        return Kind::Interim;
    }
    if head_only || status == 204 || status == 304 {
        return Kind::NoBody;
    }
    if first_named(bytes, fields, b"transfer-encoding").is_none() {
        return kind_by_length(bytes, fields);
    }
    if are_chunked(bytes, fields) {
        Kind::Chunked
    } else {
        Kind::Malformed
    }
}

/// By the values of Content-Length.
fn kind_by_length(bytes: &[u8], fields: &[HeaderSpan]) -> Kind
    requires { All (IsHeaderWithin (length bytes.now)) fields.now }
    ensures kind { result ≡ kind_by_length (named (codes "content-length") (fields_in bytes.now fields.now)) }
    ensures within { IsWithinLimit result }
{
    let Some(value) = first_named(bytes, fields, b"content-length") else {
        return Kind::ToEnd;
    };
    if are_copies(bytes, fields, value) {
        kind_by_number(value)
    } else {
        Kind::Malformed
    }
}

fn kind_by_number(value: &[u8]) -> Kind
    ensures kind { result ≡ kind_by_number value.now }
    ensures within { IsWithinLimit result }
{
    match number(value) {
        Some(size) if size <= BODY_LIMIT => Kind::Fixed(size),
        Some(_) => Kind::TooLarge,
        None => Kind::Malformed,
    }
}

/// The number below 2^63 that digits alone give.
fn number(value: &[u8]) -> Option<usize>
    ensures { result ≡ (if is_length value.now then Some (digits_value 10 value.now) else None) }
{
    let mut size: usize = 0;
    for b in value {
        if !b.is_ascii_digit() {
            return None;
        }
        size = size
            .saturating_mul(10)
            .saturating_add(usize::from(*b - b'0'));
    }
    if value.is_empty() || size >= 1 << 63 {
        None
    } else {
        Some(size)
    }
}
