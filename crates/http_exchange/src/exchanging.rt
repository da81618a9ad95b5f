ghost use Rattle.std.specs.Prelude.{◌≡◌, ◌≤◌, false};
ghost use Rattle.aws_world.specs.Told.{Tells, Rose};
ghost use Rattle.http_reply.specs.Outcome.{IsSmall};
ghost use Rattle.http_exchange.specs.Exchange.{AddsExchange, IsLost};

use crate::receiving::receive_reply;
use crate::sending::send_all;
use aws_world::{Link, Target};
use http_reply::{Outcome, ReplyReader};
use std::alloc::Global;
use texts::Bytes;

#[cfg(test)]
mod tests;

/// Sends a request on a new connection, receives the reply and closes the connection.
/// `head_only` tells that the request's method is HEAD, whose replies have no body.
pub fn exchange<L: Link>(
    alloc: Global,
    link: &mut L,
    target: &Target,
    request: &Bytes,
    head_only: bool,
) -> Outcome
    requires none_live { L.live link.old ≡ false }
    ensures none_live { L.live link.new ≡ false }
    ensures adds { Tells (L.told link.old) (L.told link.new)
        (AddsExchange target.now request.now head_only result) }
    ensures later { L.faults link.old ≤ L.faults link.new }
    ensures lost { IsLost result → Rose (L.faults link.old) (L.faults link.new) }
    ensures small { IsSmall result }
{
    let outcome = converse(alloc, link, target, request.as_slice(), head_only);
    link.close();
    outcome
}

/// Makes a connection, sends the request and receives the reply, and leaves the connection live.
fn converse<L: Link>(
    alloc: Global,
    link: &mut L,
    target: &Target,
    request: &[u8],
    head_only: bool,
) -> Outcome
    requires none_live { L.live link.old ≡ false }
    ensures adds { Tells (L.told link.old) (L.told link.new)
        (AddsExchange target.now request.now head_only result) }
    ensures later { L.faults link.old ≤ L.faults link.new }
    ensures lost { IsLost result → Rose (L.faults link.old) (L.faults link.new) }
    ensures small { IsSmall result }
{
    let reader = ReplyReader::new(alloc, head_only);
    if let Err(fault) = link.connect(&target.host, target.port) {
        return Outcome::Lost(fault);
    }
    if let Err(fault) = send_all(link, request) {
        return Outcome::Lost(fault);
    }
    receive_reply(alloc, link, head_only, reader)
}
