ghost use Rattle.std.specs.Prelude.{◌<◌};

use crate::{Outcome, ReplyReader};
use aws_world::{LinkFault, header};
use std::alloc::{AllocError, Global};
use std::str;
use std::test::Fail;

/// The outcome of bytes that come in pieces of one size, before the end or the fault.
fn outcome(
    alloc: Global,
    bytes: &[u8],
    size: usize,
    head_only: bool,
    fault: Option<LinkFault>,
) -> Outcome
    requires { 0 < size }
{
    let mut reader = ReplyReader::new(alloc, head_only);
    for piece in bytes.chunks(size) {
        if let Some(outcome) = reader.read(alloc, piece) {
            return outcome;
        }
    }
    reader.finish(fault)
}

/// An outcome in short: of a whole reply the status, a blank and the body.
fn shown(alloc: Global, outcome: &Outcome) -> Result<String, AllocError> {
    match outcome {
        Outcome::Whole(reply) => {
            let body = str::from_utf8(reply.body.as_slice()).unwrap_or("?");
            format!(in alloc; "{} {body}", reply.status)
        }
        Outcome::Lost(kind) => format!(in alloc; "{kind:?}"),
        Outcome::Cut => String::from_str(alloc, "Cut"),
        Outcome::Malformed => String::from_str(alloc, "Malformed"),
        Outcome::TooLarge => String::from_str(alloc, "TooLarge"),
        Outcome::OutOfMemory => String::from_str(alloc, "OutOfMemory"),
    }
}

/// Replies and what comes of each, to a method that isn't HEAD.
const REPLIES: [(&[u8], &str); 28] = [
    (
        b"HTTP/1.1 200 OK\r\nContent-Length: 5\r\n\r\nhello",
        "200 hello",
    ),
    (
        b"HTTP/1.1 200 OK\ncontent-length: 5\n\nhello, more",
        "200 hello",
    ),
    (b"\r\nHTTP/1.1 200 OK\r\nContent-Length: 0\r\n\r\n", "200 "),
    (
        b"\r\n\r\nHTTP/1.1 200 OK\r\nContent-Length: 0\r\n\r\n",
        "Malformed",
    ),
    (b"HTTP/1.1 200 OK\r\nContent-Length: 5\r\n\r\nhell", "Cut"),
    (b"", "Cut"),
    (b"HTTP/1.1 200 OK\r\n\r\nto the end", "200 to the end"),
    (b"HTTP/1.0 404 Not Found\r\n\r\n", "404 "),
    (b"HTTP/1.1 204 No Content\r\n\r\nrest", "204 "),
    (
        b"HTTP/1.1 304 Not Modified\r\nContent-Length: 9\r\n\r\n",
        "304 ",
    ),
    (
        b"HTTP/1.1 100 Continue\r\n\r\nHTTP/1.1 103 Early\r\nA: b\r\n\r\nHTTP/1.1 200 OK\r\nContent-Length: 1\r\n\r\nx",
        "200 x",
    ),
    (b"HTTP/1.1 100 Continue\r\n\r\n", "Cut"),
    (
        b"HTTP/1.1 200 OK\r\nContent-Length: 1\r\nContent-Length: 1\r\n\r\nx",
        "200 x",
    ),
    (
        b"HTTP/1.1 200 OK\r\nContent-Length: 1\r\nContent-Length: 01\r\n\r\nx",
        "Malformed",
    ),
    (
        b"HTTP/1.1 200 OK\r\nContent-Length: 00000000000000000000000000000001\r\n\r\nx",
        "200 x",
    ),
    (b"HTTP/1.1 200 OK\r\nContent-Length: \r\n\r\n", "Malformed"),
    (
        b"HTTP/1.1 200 OK\r\nContent-Length: +1\r\n\r\nx",
        "Malformed",
    ),
    (
        b"HTTP/1.1 200 OK\r\nContent-Length: 67108865\r\n\r\n",
        "TooLarge",
    ),
    (
        b"HTTP/1.1 200 OK\r\nContent-Length: 9223372036854775808\r\n\r\n",
        "Malformed",
    ),
    (
        b"HTTP/1.1 200 OK\r\nTransfer-Encoding: gzip\r\nContent-Length: 1\r\n\r\nx",
        "Malformed",
    ),
    (
        b"HTTP/1.1 200 OK\r\ntransfer-encoding: CHUNKED\r\nContent-Length: 9\r\n\r\n3;a=b\r\nabc\r\n2\r\nde\r\n0\r\n\r\n",
        "200 abcde",
    ),
    (
        b"HTTP/1.1 200 OK\r\nTransfer-Encoding: chunked\r\n\r\n3\r\nabc\r\n0\r\nTrailer: t\r\nOther\n\r\n",
        "200 abc",
    ),
    (
        b"HTTP/1.1 200 OK\r\nTransfer-Encoding: chunked\r\n\r\n3\r\nabc\r\n",
        "Cut",
    ),
    (
        b"HTTP/1.1 200 OK\r\nTransfer-Encoding: chunked\r\n\r\n3\r\nabcd\r\n",
        "Malformed",
    ),
    (
        b"HTTP/1.1 200 OK\r\nTransfer-Encoding: chunked\r\n\r\n3\nabc\r\n",
        "Malformed",
    ),
    (
        b"HTTP/1.1 200 OK\r\nTransfer-Encoding: chunked\r\n\r\n4000001\r\n",
        "TooLarge",
    ),
    (
        b"HTTP/1.1 200 OK\r\nTransfer-Encoding: chunked\r\n\r\n10000000000000000\r\n",
        "Malformed",
    ),
    (b"HTTP/1.1 20 OK\r\n\r\n", "Malformed"),
];

#[test]
fn replies_in_pieces(rt: HostRuntime) -> Result<(), Fail> {
    for (bytes, want) in REPLIES {
        for size in [1, 2, 7, 1000] {
            let outcome = outcome(rt.alloc(), bytes, size, false, None);
            let shown = shown(rt.alloc(), &outcome)?;
            assert_eq!(rt; shown.as_str(), want, "in pieces of {size}");
        }
    }
    Ok(())
}

#[test]
fn method_fault_and_headers(rt: HostRuntime) -> Result<(), Fail> {
    let bytes = b"HTTP/1.1 200 OK\r\nContent-Length: 9\r\nName:  first \r\nnAmE: second\r\n\r\n";
    let lost = outcome(rt.alloc(), bytes, 1, false, Some(LinkFault::Timeout));
    assert_eq!(rt; shown(rt.alloc(), &lost)?.as_str(), "Timeout");
    let Outcome::Whole(reply) = outcome(rt.alloc(), bytes, 1, true, None) else {
        panic!(rt; "no whole reply");
    };
    let value = header(&reply, "NAME").ok_or("absent")?;
    assert_eq!(rt; value.as_str(), "first");
    assert!(rt; header(&reply, "Nam").is_none());
    Ok(())
}
