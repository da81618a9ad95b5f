ghost use Rattle.std.specs.Prelude.{◌≡◌, false};
ghost use Rattle.aws_world.specs.Told.{Tells};
ghost use Rattle.http_reply.specs.declared.outcome.Outcome.{Outcome};
ghost use Rattle.http_exchange.specs.Exchange.{AddsExchange};
ghost use Rattle.aws_main.specs.Causes.{HasLinkCause};
ghost use Rattle.aws_main.specs.Course.{IsAnswer, IsShown};

use crate::causes::{Unanswered, Unbuilt};
use crate::outputs::output;
use crate::plain_operations::PlainOperation;
use crate::planning::Planned;
use aws_world::{Link, Reply};
use http_exchange::{Outcome, exchange};
use json_doc::Text;
use std::alloc::Global;

/// The exchange, and the text that is due for its reply.
pub fn answer<L: Link>(alloc: Global, planned: &Planned, link: &mut L) -> Result<Text, Unanswered>
    requires none_live { L.live link.old ≡ false }
    ensures none_live { L.live link.new ≡ false }
    ensures exchanged { (outcome : Outcome) × IsAnswer planned.now.operation outcome result
        × Tells (L.told link.old) (L.told link.new) (AddsExchange planned.now.asked.target planned.now.request false outcome) }
    ensures cause { HasLinkCause (L.faults link.old) (L.faults link.new) result }
{
    let outcome = exchange(alloc, link, &planned.asked.target, &planned.request, false);
    answer_to(alloc, &planned.operation, &outcome)
}

/// The answer to what came of an exchange.
fn answer_to(
    alloc: Global,
    operation: &PlainOperation,
    outcome: &Outcome,
) -> Result<Text, Unanswered>
    ensures { IsAnswer operation.now outcome.now result }
{
    match outcome {
        Outcome::Whole(reply) => shown(alloc, operation, reply),
        Outcome::Lost(fault) => Err(Unanswered::Lost(*fault)),
        Outcome::Cut | Outcome::Malformed | Outcome::TooLarge => Err(Unanswered::NotBuilt),
        Outcome::OutOfMemory => Err(Unanswered::OutOfMemory),
    }
}

/// The text that is due for a whole reply.
fn shown(alloc: Global, operation: &PlainOperation, reply: &Reply) -> Result<Text, Unanswered>
    ensures { IsShown operation.now reply.now result }
{
    match output(alloc, operation, reply) {
        Ok(text) => Ok(text),
        Err(Unbuilt::NotBuilt) => Err(Unanswered::NotBuilt),
        Err(Unbuilt::OutOfMemory) => Err(Unanswered::OutOfMemory),
    }
}
