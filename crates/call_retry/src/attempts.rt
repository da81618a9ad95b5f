//! One attempt of a call.
ghost use Rattle.std.specs.Prelude.{◌≡◌, ◌≤◌, false, None, [], IsTrue};
ghost use Rattle.std.specs.Option.{option_to_list};
ghost use Rattle.aws_world.specs.Moments.{with_more};
ghost use Rattle.aws_world.specs.Told.{Rose, Tells};
ghost use Rattle.http_exchange.specs.Exchanges.{AddsExchanges};
ghost use Rattle.service_model.specs.Kept.{IsOperation};
ghost use Rattle.call_retry.specs.Attempts.{Attempt, IsAttempt, is_head_only};
ghost use Rattle.call_retry.specs.Ends.{HasShortAnswer, IsLostEnd};
ghost use Rattle.call_retry.specs.Inside.{order_asked, unsent_as};

use crate::asking::Asking;
use crate::call_end::CallEnd;
use crate::reading::outcome_read;
use crate::requests::request;
use aws_world::{Clock, Link, Message};
use http_exchange::exchange;
use sigv4::SignFault;
use std::alloc::Global;

/// Sends the message once, signed where it is to be, and reads the reply.
pub fn attempt<L: Link, C: Clock>(
    alloc: Global,
    asking: Asking<'_>,
    message: &Message,
    link: &mut L,
    clock: &mut C,
) -> CallEnd
    requires operation { IsOperation asking.model.now.shapes asking.op.now }
    requires none_live { L.live link.old ≡ false }
    ensures none_live { L.live link.new ≡ false }
    ensures made { (a : Attempt) × (a.word ≡ None) × IsAttempt (order_asked asking.entry) message.now a result
        × Tells (L.told link.old) (L.told link.new)
        (AddsExchanges (order_asked asking.entry).target (is_head_only (order_asked asking.entry)) (option_to_list a.exchange))
        × Tells (C.told clock.old) (C.told clock.new) (λ before after. after ≡ with_more (option_to_list a.moment) [] before) }
    ensures link_later { L.faults link.old ≤ L.faults link.new }
    ensures lost { IsLostEnd result → Rose (L.faults link.old) (L.faults link.new) }
    ensures clock_later { C.faults clock.old ≤ C.faults clock.new }
    ensures short { HasShortAnswer result }
{
    let request = match request(alloc, asking.signer, message, clock) {
        Ok(request) => request,
        Err(fault) => return unsent(fault),
    };
    let head_only = asking.op.method.is("HEAD");
    let outcome = exchange(alloc, link, asking.target, &request, head_only);
    outcome_read(alloc, asking, &outcome)
}

/// Why no request was made, as an end.
fn unsent(fault: SignFault) -> CallEnd
    ensures { result ≡ unsent_as fault }
{
    match fault {
        SignFault::BadClock(now) => CallEnd::BadClock(now),
        SignFault::OutOfMemory => CallEnd::OutOfMemory,
    }
}
