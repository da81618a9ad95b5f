//! What an outcome comes to.
ghost use Rattle.http_reply.specs.Outcome.{IsSmall};
ghost use Rattle.service_model.specs.Kept.{IsOperation};
ghost use Rattle.call_retry.specs.Attempts.{ComesTo};
ghost use Rattle.call_retry.specs.Ends.{HasShortAnswer};
ghost use Rattle.call_retry.specs.Inside.{order_asked};

use crate::asking::Asking;
use crate::call_end::CallEnd;
use aws_world::Reply;
use http_exchange::Outcome;
use resp_parser::{ReplyFault, parse};
use std::alloc::Global;

/// What an outcome comes to.
pub fn outcome_read(alloc: Global, asking: Asking<'_>, outcome: &Outcome) -> CallEnd
    requires operation { IsOperation asking.model.now.shapes asking.op.now }
    requires small { IsSmall outcome.now }
    ensures read { ComesTo (order_asked asking.entry) outcome.now result }
    ensures short { HasShortAnswer result }
{
    match outcome {
        Outcome::Whole(reply) => reply_read(alloc, asking, reply),
        Outcome::Lost(fault) => CallEnd::Lost(*fault),
        Outcome::Cut => CallEnd::Cut,
        Outcome::Malformed => CallEnd::Malformed,
        Outcome::TooLarge => CallEnd::TooLarge,
        Outcome::OutOfMemory => CallEnd::OutOfMemory,
    }
}

/// What a whole reply comes to.
fn reply_read(alloc: Global, asking: Asking<'_>, reply: &Reply) -> CallEnd
    requires operation { IsOperation asking.model.now.shapes asking.op.now }
    requires small { IsSmall (Outcome.Whole reply.now) }
    ensures read { ComesTo (order_asked asking.entry) (Outcome.Whole reply.now) result }
    ensures short { HasShortAnswer result }
{
    match parse(alloc, asking.model, asking.op, reply) {
        Ok(doc) => CallEnd::Answer(doc, reply.status),
        Err(ReplyFault::Service(error)) => CallEnd::Service(error),
        Err(ReplyFault::BadBody(path)) => CallEnd::BadReply(path),
        Err(ReplyFault::Compressed) => CallEnd::Compressed,
        Err(ReplyFault::OutOfMemory) => CallEnd::OutOfMemory,
    }
}
