//! Reading a reply from the pieces in which it comes.
ghost use Rattle.std.specs.Prelude.{◌≡◌, ◌+◌, ◌≤◌, ℕ, Bool, false, List, [], ◌++◌, length, drop, take, vec_len, IfOk, IfSome, IfNone, is_none};
ghost use Rattle.aws_world.specs.declared.message.Reply.{Reply};
ghost use Rattle.http_reply.specs.Machine.{wait, Does};
ghost use Rattle.http_reply.specs.Outcome.{IsOutcome, IsSmall};
ghost use Rattle.http_reply.specs.Reading.{phase_of, Fits, IsScanned, Reaches};
ghost use Rattle.http_reply.specs.Waiting.{WaitsAfter, IsReading, WaitsOrAnswers};

use crate::limits::TOTAL_LIMIT;
use crate::outcome::Outcome;
use crate::steps::{Due, Stepped, step};
use aws_world::{LinkFault, Reply};
use std::alloc::Global;
use std::mem;
use texts::{Bytes, List, OutOfMemory};

/// What bytes made of a reply.
#[derive(Clone, Copy, Debug, PartialEq, Eq)]
pub(crate) enum Reached {
    /// So many bytes are taken, and this waits for more.
    Waits(Due, usize),
    /// The reply is whole.
    Whole,
    /// The reply is whole. After so many bytes come those of its body, as many as the second number.
    WholeWith(usize, usize),
    /// The reply is malformed.
    Malformed,
    /// The reply is too large.
    TooLarge,
}

/// Where to search on, once more bytes follow those that waited.
fn scanned(due: Due, size: usize) -> usize
    ensures { (head_only : Bool) (reply : Reply) (bytes more : List ℕ) → length bytes ≡ size
        → Does head_only (phase_of due reply) bytes wait → IsScanned due (bytes ++ more) result }
{
    match due {
        Due::Heads(_) => size.saturating_sub(2),
        Due::Lines(_) => size,
        Due::Trailers(_) => size,
        Due::Fixed(_) | Due::Chunk(_, _) | Due::ToEnd => 0,
    }
}

/// Takes step after step. What is due first is not to be found before `from`.
fn advance(
    alloc: Global,
    head_only: bool,
    bytes: &[u8],
    mut from: usize,
    mut due: Due,
    reply: &mut Reply,
) -> Result<Reached, OutOfMemory>
    requires scanned { IsScanned due bytes.now from }
    requires fits { Fits due reply.old }
    ensures { IfOk result (Reaches head_only (phase_of due reply.old) bytes.now reply.new) }
{
    let mut at = 0;
    loop {
        let (_, rest) = bytes.split_at(at);
        match step(alloc, head_only, rest, from, due, reply)? {
            Stepped::Waits => return Ok(Reached::Waits(due, at)),
            Stepped::Moves(next, taken) => {
                due = next;
                at += taken;
                from = 0;
            }
            Stepped::Whole => return Ok(Reached::Whole),
            Stepped::WholeWith(size) => return Ok(Reached::WholeWith(at, size)),
            Stepped::Malformed => return Ok(Reached::Malformed),
            Stepped::TooLarge => return Ok(Reached::TooLarge),
        }
    }
}

/// Takes bytes off the front.
fn cut_front(bytes: &mut Vec<u8>, at: usize)
    requires { at ≤ vec_len bytes.old }
    ensures { bytes.new.items ≡ drop at bytes.old.items }
{
    if at == 0 {
        return;
    }
    let left = bytes.len() - at;
    bytes.copy_within(at.., 0);
    bytes.truncate(left);
}

/// A reply that is being read. It keeps what the bytes so far gave, and those not yet taken.
#[derive(Debug, Drop)]
pub struct ReplyReader {
    head_only: bool,
    /// How many bytes were received.
    count: usize,
    due: Due,
    /// The head, and what the chunks so far gave of the body.
    reply: Reply,
    /// The bytes that are not yet taken.
    rest: Vec<u8>,
}

fn empty_reply(alloc: Global) -> Reply
    ensures { Fits (Due.Heads 0) result }
{
    Reply {
        status: 0,
        headers: List::new(alloc),
        body: Bytes::new(alloc),
    }
}

impl ReplyReader {
    /// A reader of no bytes yet. To a request whose method was HEAD no body is sent.
    pub fn new(alloc: Global, head_only: bool) -> ReplyReader
        ensures { WaitsAfter head_only [] result }
    {
        ReplyReader {
            head_only,
            count: 0,
            due: Due::Heads(0),
            reply: empty_reply(alloc),
            rest: Vec::new(alloc),
        }
    }

    /// The reply, taken out.
    fn take_reply(&mut self, alloc: Global) -> Reply
        ensures { result ≡ self.old.reply }
    {
        mem::replace(&mut self.reply, empty_reply(alloc))
    }

    /// The reply with some of the bytes that are left as its body, taken out.
    fn take_with_body(&mut self, alloc: Global, at: usize, size: usize) -> Reply
        requires { at + size ≤ vec_len self.old.rest }
        ensures { result ≡ record self.old.reply { body = take size (drop at self.old.rest.items) } }
    {
        let mut body = mem::replace(&mut self.rest, Vec::new(alloc));
        cut_front(&mut body, at);
        body.truncate(size);
        let mut reply = self.take_reply(alloc);
        reply.body = Bytes::from_vec(body);
        reply
    }

    /// Takes in bytes that keep the limit of all.
    fn read_within(&mut self, alloc: Global, piece: &[u8]) -> Result<Option<Outcome>, OutOfMemory>
        requires reads { IsReading self.old }
        requires few { self.old.count + length piece.now ≤ TOTAL_LIMIT }
        ensures gives { (head_only : Bool) (received : List ℕ) → WaitsAfter head_only received self.old
            → IfOk result (WaitsOrAnswers head_only (received ++ piece.now) self.new) }
        ensures small { IfOk result (λ outcome. IfSome outcome IsSmall) }
    {
        let from = scanned(self.due, self.rest.len());
        self.rest.extend_from_slice(piece)?;
        self.count += piece.len();
        match advance(
            alloc,
            self.head_only,
            &self.rest,
            from,
            self.due,
            &mut self.reply,
        )? {
            Reached::Waits(due, at) => {
                self.due = due;
                cut_front(&mut self.rest, at);
                Ok(None)
            }
            Reached::Whole => Ok(Some(Outcome::Whole(self.take_reply(alloc)))),
            Reached::WholeWith(at, size) => {
                Ok(Some(Outcome::Whole(self.take_with_body(alloc, at, size))))
            }
            Reached::Malformed => Ok(Some(Outcome::Malformed)),
            Reached::TooLarge => Ok(Some(Outcome::TooLarge)),
        }
    }

    /// Takes in one more piece, and answers the outcome once the bytes decide it. After an outcome
    /// the reader is done with.
    pub fn read(&mut self, alloc: Global, piece: &[u8]) -> Option<Outcome>
        requires { IsReading self.old }
        ensures gives { (head_only : Bool) (received : List ℕ) → WaitsAfter head_only received self.old
            → WaitsOrAnswers head_only (received ++ piece.now) self.new result }
        ensures reads { IfNone result (IsReading self.new) }
        ensures small { IfSome result IsSmall }
    {
        let left = TOTAL_LIMIT - self.count;
        let (seen, _) = piece.split_at(left.min(piece.len()));
        match self.read_within(alloc, seen) {
            Err(OutOfMemory) => Some(Outcome::OutOfMemory),
            Ok(Some(outcome)) => Some(outcome),
            Ok(None) if piece.len() > left => Some(Outcome::TooLarge),
            Ok(None) => None,
        }
    }

    /// The outcome where no more bytes come: the peer ended, or the connection had a fault. It takes
    /// no memory.
    pub fn finish(self, fault: Option<LinkFault>) -> Outcome
        requires { IsReading self }
        ensures outcome { (head_only : Bool) (received : List ℕ) → WaitsAfter head_only received self
            → IsOutcome head_only received (is_none fault) fault result }
        ensures memory { ¬ (result ≡ Outcome.OutOfMemory) }
        ensures small { IsSmall result }
    {
        if let Some(kind) = fault {
            return Outcome::Lost(kind);
        }
        let Due::ToEnd = self.due else {
            return Outcome::Cut;
        };
        let ReplyReader {
            mut reply,
            rest,
            ..
        } = self;
        reply.body = Bytes::from_vec(rest);
        Outcome::Whole(reply)
    }
}
