//! One step of reading a reply: what is due next, and what the bytes that are not yet taken make of
//! it.
ghost use Rattle.std.specs.Prelude.{◌≡◌, ◌+◌, ◌≤◌, ℕ, Bool, List, [], IfOk, MatchOption, count_by, ◌==◌, nat_le, if◌then◌else◌};
ghost use Rattle.aws_world.specs.declared.message.Reply.{Reply};
ghost use Rattle.http_reply.specs.declared.outcome.Outcome.TheVariants.{TooLarge};
ghost use Rattle.httparse.specs.Ascii.{line_feed};
ghost use Rattle.httparse.specs.Grammar.{ChunkLine, ReadsChunkLine, chunk_size};
ghost use Rattle.http_reply.specs.Cuts.{head_end, line_end};
ghost use Rattle.http_reply.specs.Kinds.{IsWithinLimit};
ghost use Rattle.http_reply.specs.Machine.{Step, wait, decide, Does, CutsHead, after_head, fixed_step, CutsLine, chunk_step, after_chunk, trailer_step, to_end_step};
ghost use Rattle.http_reply.specs.Outcome.{HasSmallHead};
ghost use Rattle.http_reply.specs.Reading.{HasNoBody, phase_of, Fits, IsScanned, step_of, StepFits, by_chunk_end};

use crate::cuts::{CARRIAGE_RETURN, LINE_FEED, empty_line, head_end, line_end};
use crate::heads::judge_head;
use crate::kinds::Kind;
use crate::limits::{BODY_LIMIT, CHUNK_LINE_LIMIT, HEAD_LIMIT, LINE_LIMIT};
use aws_world::Reply;
use httparse::{Status, parse_chunk_size};
use std::alloc::Global;
use texts::OutOfMemory;

/// What is due next. Heads and trailers count the bytes of those before.
#[derive(Clone, Copy, Debug, PartialEq, Eq)]
pub(crate) enum Due {
    Heads(usize),
    /// A body of so many bytes.
    Fixed(usize),
    /// The line before a chunk.
    Lines(usize),
    /// A chunk of so many bytes (the second number) and its line end.
    Chunk(usize, usize),
    Trailers(usize),
    /// A body that lasts until the peer ends.
    ToEnd,
}

/// What the bytes that are not yet taken lead to.
#[derive(Clone, Copy, Debug, PartialEq, Eq)]
pub(crate) enum Stepped {
    /// More bytes are awaited.
    Waits,
    /// So many bytes are taken, and this is due next.
    Moves(Due, usize),
    /// The reply is whole.
    Whole,
    /// The reply is whole, with the first so many bytes as its body.
    WholeWith(usize),
    /// The reply is malformed.
    Malformed,
    /// The reply is too large.
    TooLarge,
}

/// More is awaited up to a limit.
fn wait_within(size: usize, limit: usize) -> Stepped
    ensures step { (reply : Reply) (bytes : List ℕ) → step_of reply bytes result ≡ (if nat_le size limit then wait else decide TooLarge) }
    ensures fits { (reply : Reply) (bytes : List ℕ) → StepFits reply reply bytes result }
{
    if size <= limit {
        Stepped::Waits
    } else {
        Stepped::TooLarge
    }
}

/// After a head of `size` bytes, and `used` bytes of heads before.
fn after_head(used: usize, size: usize, kind: Kind) -> Stepped
    requires { used + size ≤ HEAD_LIMIT }
    ensures step { (reply : Reply) (bytes : List ℕ) → step_of reply bytes result ≡ after_head used size reply kind }
    ensures fits { (before after : Reply) (bytes : List ℕ) → IsWithinLimit kind → HasSmallHead after → HasNoBody after → StepFits before after bytes result }
{
    match kind {
        Kind::Interim => Stepped::Moves(Due::Heads(used + size), size),
        Kind::NoBody => Stepped::Whole,
        Kind::Chunked => Stepped::Moves(Due::Lines(used + size), size),
        Kind::Fixed(length) => Stepped::Moves(Due::Fixed(length), size),
        Kind::ToEnd => Stepped::Moves(Due::ToEnd, size),
        Kind::Malformed => Stepped::Malformed,
        Kind::TooLarge => Stepped::TooLarge,
    }
}

/// The bytes that end lines.
fn line_count(bytes: &[u8]) -> usize
    ensures { result ≡ count_by (λ b. b == line_feed) bytes.now }
{
    bytes.iter().filter(|b| **b == LINE_FEED).count()
}

fn head_step(
    alloc: Global,
    head_only: bool,
    rest: &[u8],
    from: usize,
    used: usize,
    reply: &mut Reply,
) -> Result<Stepped, OutOfMemory>
    requires scanned { IsScanned (Due.Heads used) rest.now from }
    requires fits { Fits (Due.Heads used) reply.old }
    ensures step { IfOk result (λ s. CutsHead head_only used rest.now (head_end rest.now) (step_of reply.new rest.now s)) }
    ensures fits { IfOk result (StepFits reply.old reply.new rest.now) }
{
    let Some(size) = head_end(rest, from) else {
        return Ok(wait_within(used + rest.len(), HEAD_LIMIT));
    };
    let (head, _) = rest.split_at(size);
    if used + size > HEAD_LIMIT || line_count(head) > LINE_LIMIT {
        return Ok(Stepped::TooLarge);
    }
    let kind = judge_head(alloc, head_only, head, reply)?;
    Ok(after_head(used, size, kind))
}

fn fixed_step(rest: &[u8], size: usize, reply: &Reply) -> Stepped
    requires { Fits (Due.Fixed size) reply.now }
    ensures step { step_of reply.now rest.now result ≡ fixed_step reply.now size rest.now }
    ensures fits { StepFits reply.now reply.now rest.now result }
{
    if size <= rest.len() {
        Stepped::WholeWith(size)
    } else {
        Stepped::Waits
    }
}

fn to_end_step(rest: &[u8], reply: &Reply) -> Stepped
    ensures step { step_of reply.now rest.now result ≡ to_end_step rest.now }
    ensures fits { StepFits reply.now reply.now rest.now result }
{
    wait_within(rest.len(), BODY_LIMIT)
}

fn trailer_step(rest: &[u8], from: usize, used: usize, reply: &Reply) -> Stepped
    requires scanned { IsScanned (Due.Trailers used) rest.now from }
    requires fits { Fits (Due.Trailers used) reply.now }
    ensures step { step_of reply.now rest.now result ≡ trailer_step reply.now used rest.now (line_end rest.now) }
    ensures fits { StepFits reply.now reply.now rest.now result }
{
    let Some(size) = line_end(rest, from) else {
        return wait_within(used + rest.len(), HEAD_LIMIT);
    };
    if used + size > HEAD_LIMIT {
        return Stepped::TooLarge;
    }
    let (line, _) = rest.split_at(size);
    if empty_line(line, 0).is_some() {
        return Stepped::Whole;
    }
    Stepped::Moves(Due::Trailers(used + size), size)
}

/// The size that a whole line before a chunk gives.
fn judge_line(line: &[u8]) -> Option<u64>
    ensures { MatchOption result ((l : ChunkLine) → ReadsChunkLine line.now l [] → ⊥)
        (λ size. (l : ChunkLine) × ReadsChunkLine line.now l [] × (size ≡ chunk_size l)) }
{
    let Ok(Status::Complete((used, size))) = parse_chunk_size(line) else {
        return None;
    };
    if used == line.len() { Some(size) } else { None }
}

fn line_step(rest: &[u8], from: usize, used: usize, reply: &Reply) -> Stepped
    requires scanned { IsScanned (Due.Lines used) rest.now from }
    requires fits { Fits (Due.Lines used) reply.now }
    ensures step { CutsLine reply.now used rest.now (line_end rest.now) (step_of reply.now rest.now result) }
    ensures fits { StepFits reply.now reply.now rest.now result }
{
    let Some(size) = line_end(rest, from) else {
        return wait_within(rest.len(), CHUNK_LINE_LIMIT);
    };
    if size > CHUNK_LINE_LIMIT {
        return Stepped::TooLarge;
    }
    let (line, _) = rest.split_at(size);
    match judge_line(line) {
        None => Stepped::Malformed,
        Some(0) => Stepped::Moves(Due::Trailers(used), size),
        Some(length) if length <= (BODY_LIMIT - reply.body.len()) as u64 => {
            Stepped::Moves(Due::Chunk(used, length as usize), size)
        }
        Some(_) => Stepped::TooLarge,
    }
}

/// Whether CR LF follows a chunk.
#[derive(Clone, Copy, Debug, PartialEq, Eq)]
pub(crate) enum ChunkEnd {
    Awaited,
    There,
    Missing,
}

fn chunk_end(bytes: &[u8]) -> ChunkEnd
    ensures { (next : Step) → after_chunk next bytes.now ≡ by_chunk_end next result }
{
    match bytes {
        [] | [CARRIAGE_RETURN] => ChunkEnd::Awaited,
        [CARRIAGE_RETURN, LINE_FEED, ..] => ChunkEnd::There,
        _ => ChunkEnd::Missing,
    }
}

fn chunk_step(
    rest: &[u8],
    used: usize,
    size: usize,
    reply: &mut Reply,
) -> Result<Stepped, OutOfMemory>
    requires { Fits (Due.Chunk used size) reply.old }
    ensures step { IfOk result (λ s. step_of reply.new rest.now s ≡ chunk_step reply.old used size rest.now) }
    ensures fits { IfOk result (StepFits reply.old reply.new rest.now) }
{
    if rest.len() < size {
        return Ok(Stepped::Waits);
    }
    let (data, end) = rest.split_at(size);
    match chunk_end(end) {
        ChunkEnd::Awaited => Ok(Stepped::Waits),
        ChunkEnd::Missing => Ok(Stepped::Malformed),
        ChunkEnd::There => {
            reply.body.extend(data)?;
            Ok(Stepped::Moves(Due::Lines(used), size + 2))
        }
    }
}

/// The step of what is due.
pub(crate) fn step(
    alloc: Global,
    head_only: bool,
    rest: &[u8],
    from: usize,
    due: Due,
    reply: &mut Reply,
) -> Result<Stepped, OutOfMemory>
    requires scanned { IsScanned due rest.now from }
    requires fits { Fits due reply.old }
    ensures step { IfOk result (λ s. Does head_only (phase_of due reply.old) rest.now (step_of reply.new rest.now s)) }
    ensures fits { IfOk result (StepFits reply.old reply.new rest.now) }
{
    match due {
        Due::Heads(used) => head_step(alloc, head_only, rest, from, used, reply),
        Due::Fixed(size) => Ok(fixed_step(rest, size, reply)),
        Due::Lines(used) => Ok(line_step(rest, from, used, reply)),
        Due::Chunk(used, size) => chunk_step(rest, used, size, reply),
        Due::Trailers(used) => Ok(trailer_step(rest, from, used, reply)),
        Due::ToEnd => Ok(to_end_step(rest, reply)),
    }
}
