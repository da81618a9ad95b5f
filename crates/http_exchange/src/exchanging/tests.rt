ghost use Rattle.std.specs.Prelude.{◌≤◌};

use super::*;
use aws_world::{LinkFault, Script, ScriptLink};
use std::process::Abort;
use std::str;
use std::test::Fail;
use texts::{List, OutOfMemory, Text};

const REQUEST: &[u8] =
    b"POST / HTTP/1.1\r\nHost: 127.0.0.1:8080\r\nContent-Length: 2\r\nConnection: close\r\n\r\n{}";

const TITLES: &[u8] =
    b"HTTP/1.1 200 OK\r\nContent-Length: 28\r\n\r\n{\"Titles\": [\"Dune\", \"Emma\"]}";

const WHOLE_TITLES: &str = "200 {\"Titles\": [\"Dune\", \"Emma\"]}";

/// What is to come of an exchange.
#[derive(Clone, Copy)]
struct Want<'a> {
    outcome: &'a str,
    sent: &'a [u8],
    received: &'a [u8],
    /// Whether the peer's end was received.
    ended: bool,
    fault: Option<LinkFault>,
}

/// What is to come where all of the request is sent and the link has no fault.
fn answered<'a>(outcome: &'a str, received: &'a [u8], ended: bool) -> Want<'a> {
    Want {
        outcome,
        sent: REQUEST,
        received,
        ended,
        fault: None,
    }
}

/// A peer that takes what is sent, gives these bytes and ends.
fn peer(alloc: Global, reply: &[u8]) -> Result<Script, OutOfMemory> {
    Ok(Script {
        refuse: None,
        stop_send: None,
        reply: Bytes::from_slice(alloc, reply)?,
        after: None,
    })
}

/// An outcome in short: of a whole reply the status, a blank and the body.
fn shown(alloc: Global, outcome: &Outcome) -> Result<String, OutOfMemory> {
    let text = match outcome {
        Outcome::Whole(reply) => {
            let body = str::from_utf8(reply.body.as_slice()).unwrap_or("?");
            format!(in alloc; "{} {body}", reply.status)?
        }
        Outcome::Lost(kind) => format!(in alloc; "Lost {kind:?}")?,
        other => format!(in alloc; "{other:?}")?,
    };
    Ok(text)
}

/// One exchange with a peer that gives at most `piece` bytes at a time.
fn check(
    rt: &impl Abort,
    alloc: Global,
    peer: Script,
    piece: u32,
    head_only: bool,
    want: &Want,
) -> Result<(), Fail>
    requires { 1 ≤ piece }
{
    let mut scripts = List::new(alloc);
    scripts.push(peer)?;
    let mut link = ScriptLink::new(alloc, scripts, piece);
    let target = Target {
        host: Text::from_str(alloc, "127.0.0.1")?,
        port: 8080,
    };
    let request = Bytes::from_slice(alloc, REQUEST)?;
    let outcome = exchange(alloc, &mut link, &target, &request, head_only);
    let outcome = shown(alloc, &outcome)?;
    assert_eq!(rt; outcome.as_str(), want.outcome, "in pieces of {piece}");
    let connections = link.connections().ok_or("it tells nothing")?;
    assert_eq!(rt; connections.len(), 1);
    let kept = &connections[0];
    assert_eq!(rt; kept.sent.as_slice(), want.sent);
    assert_eq!(rt; kept.received.as_slice(), want.received);
    assert_eq!(rt; kept.ended, want.ended);
    assert_eq!(rt; kept.fault, want.fault);
    Ok(())
}

#[test]
fn a_reply_in_pieces_of_each_size(rt: HostRuntime) -> Result<(), Fail> {
    let want = answered(WHOLE_TITLES, TITLES, false);
    for piece in 1..41 {
        let peer = peer(rt.alloc(), TITLES)?;
        check(&rt, rt.alloc(), peer, piece, false, &want)?;
    }
    Ok(())
}

#[test]
fn the_sending_stops_at_each_byte(rt: HostRuntime) -> Result<(), Fail> {
    for count in 0..REQUEST.len() {
        let mut peer = peer(rt.alloc(), TITLES)?;
        peer.stop_send = Some((count as u64, LinkFault::Broken));
        let want = Want {
            outcome: "Lost Broken",
            sent: &REQUEST[..count],
            received: b"",
            ended: false,
            fault: Some(LinkFault::Broken),
        };
        check(&rt, rt.alloc(), peer, 7, false, &want)?;
    }
    let mut peer = peer(rt.alloc(), TITLES)?;
    peer.stop_send = Some((REQUEST.len() as u64, LinkFault::Broken));
    let want = answered(WHOLE_TITLES, TITLES, false);
    check(&rt, rt.alloc(), peer, 7, false, &want)
}

#[test]
fn a_connection_is_refused(rt: HostRuntime) -> Result<(), Fail> {
    let mut peer = peer(rt.alloc(), TITLES)?;
    peer.refuse = Some(LinkFault::Connect);
    let want = Want {
        outcome: "Lost Connect",
        sent: b"",
        received: b"",
        ended: false,
        fault: Some(LinkFault::Connect),
    };
    check(&rt, rt.alloc(), peer, 7, false, &want)
}

#[test]
fn a_fault_after_each_part(rt: HostRuntime) -> Result<(), Fail> {
    for count in 0..TITLES.len() {
        let mut peer = peer(rt.alloc(), &TITLES[..count])?;
        peer.after = Some(LinkFault::Timeout);
        let mut want = answered("Lost Timeout", &TITLES[..count], false);
        want.fault = Some(LinkFault::Timeout);
        check(&rt, rt.alloc(), peer, 7, false, &want)?;
    }
    let mut peer = peer(rt.alloc(), TITLES)?;
    peer.after = Some(LinkFault::Timeout);
    let want = answered(WHOLE_TITLES, TITLES, false);
    check(&rt, rt.alloc(), peer, 7, false, &want)
}

/// Replies to a method that isn't HEAD: the bytes up to the one that decides, those after it, whether
/// the peer's end decides, and what comes of them.
const REPLIES: [(&[u8], &[u8], bool, &str); 12] = [
    (
        b"HTTP/1.1 200 OK\r\nContent-Length: 28\r\n\r\n{\"Titles\": [\"Dune\", \"Emma\"]",
        b"",
        true,
        "Cut",
    ),
    (b"", b"", true, "Cut"),
    (
        b"HTTP/1.1 200 OK\r\nContent-Length: 28\r\nContent-Length: 27\r\n\r\n",
        b"{}",
        false,
        "Malformed",
    ),
    (
        b"HTTP/1.1 200 OK\r\nTransfer-Encoding: gzip\r\n\r\n",
        b"{}",
        false,
        "Malformed",
    ),
    (
        b"HTTP/1.1 200 OK\r\nContent-Length: 67108865\r\n\r\n",
        b"{}",
        false,
        "TooLarge",
    ),
    (b"HTTP/1.1 204 No Content\r\n\r\n", b"rest", false, "204 "),
    (
        b"HTTP/1.1 304 Not Modified\r\nContent-Length: 28\r\n\r\n",
        b"rest",
        false,
        "304 ",
    ),
    (
        b"HTTP/1.1 200 OK\r\n\r\nto the end",
        b"",
        true,
        "200 to the end",
    ),
    (
        b"HTTP/1.1 200 OK\r\nContent-Length: 2\r\n\r\n{}",
        b"HTTP/1.1 200 OK\r\n",
        false,
        "200 {}",
    ),
    (
        b"HTTP/1.1 200 OK\r\nTransfer-Encoding: chunked\r\n\r\n\
1\r\n{\r\n1A\r\n\"Titles\": [\"Dune\",\"Emma\"]}\r\n0\r\nChecksum: 7\r\n\r\n",
        b"rest",
        false,
        "200 {\"Titles\": [\"Dune\",\"Emma\"]}",
    ),
    (
        b"HTTP/1.1 200 OK\r\nTransfer-Encoding: chunked\r\n\r\n1\r\n{\r\n",
        b"",
        true,
        "Cut",
    ),
    (
        b"HTTP/1.1 200 OK\r\nTransfer-Encoding: chunked\r\n\r\n1\r\n{}",
        b"\r\n0\r\n\r\n",
        false,
        "Malformed",
    ),
];

#[test]
fn replies_byte_by_byte(rt: HostRuntime) -> Result<(), Fail> {
    for (received, left, ended, outcome) in REPLIES {
        let mut peer = peer(rt.alloc(), received)?;
        peer.reply.extend(left)?;
        let want = answered(outcome, received, ended);
        check(&rt, rt.alloc(), peer, 1, false, &want)?;
    }
    Ok(())
}

#[test]
fn a_reply_to_head_ends_with_its_head(rt: HostRuntime) -> Result<(), Fail> {
    let (head, _) = TITLES.split_at(TITLES.len() - 28);
    let peer = peer(rt.alloc(), TITLES)?;
    let want = answered("200 ", head, false);
    check(&rt, rt.alloc(), peer, 1, true, &want)
}

const NO_CONTENT: &[u8] = b"HTTP/1.1 204 No Content\r\n";

/// Replies at the limits, with a part that is repeated so many times, up to the byte that decides: a
/// head of 100 fields and one of 65,536 bytes, a chunk's line of 4,096 bytes, a head of 47 bytes with a
/// trailer of 65,489; and many interim heads, which are skipped.
const LONG_REPLIES: [(&[u8], &[u8], usize, &[u8], &str); 9] = [
    (NO_CONTENT, b"A: b\r\n", 100, b"\r\n", "204 "),
    (NO_CONTENT, b"A: b\r\n", 101, b"\r\n", "TooLarge"),
    (
        b"HTTP/1.1 204 No Content\r\nA: ",
        b"x",
        65504,
        b"\r\n\r\n",
        "204 ",
    ),
    (
        b"HTTP/1.1 204 No Content\r\nA: ",
        b"x",
        65505,
        b"\r\n\r\n",
        "TooLarge",
    ),
    (
        b"",
        b"HTTP/1.1 100 Continue\r\n\r\n",
        100,
        TITLES,
        WHOLE_TITLES,
    ),
    (
        b"HTTP/1.1 200 OK\r\nTransfer-Encoding: chunked\r\n\r\n1;",
        b"e",
        4092,
        b"\r\nx\r\n0\r\n\r\n",
        "200 x",
    ),
    (
        b"HTTP/1.1 200 OK\r\nTransfer-Encoding: chunked\r\n\r\n1;",
        b"e",
        4093,
        b"\r\n",
        "TooLarge",
    ),
    (
        b"HTTP/1.1 200 OK\r\nTransfer-Encoding: chunked\r\n\r\n0\r\nT: ",
        b"t",
        65482,
        b"\r\n\r\n",
        "200 ",
    ),
    (
        b"HTTP/1.1 200 OK\r\nTransfer-Encoding: chunked\r\n\r\n0\r\nT: ",
        b"t",
        65483,
        b"\r\n\r\n",
        "TooLarge",
    ),
];

#[test]
fn replies_at_the_limits(rt: HostRuntime) -> Result<(), Fail> {
    for (front, part, times, back, outcome) in LONG_REPLIES {
        let mut received = Bytes::from_slice(rt.alloc(), front)?;
        for _ in 0..times {
            received.extend(part)?;
        }
        received.extend(back)?;
        let mut peer = peer(rt.alloc(), received.as_slice())?;
        peer.reply.extend(b"rest")?;
        let want = answered(outcome, received.as_slice(), false);
        check(&rt, rt.alloc(), peer, 1, false, &want)?;
    }
    Ok(())
}
