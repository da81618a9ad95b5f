ghost use Rattle.std.specs.Prelude.{◌≡◌, ◌≤◌, true, []};
ghost use Rattle.aws_world.specs.Told.{Tells, Rose};
ghost use Rattle.http_reply.specs.Outcome.{IsSmall};
ghost use Rattle.http_reply.specs.Waiting.{WaitsAfter};
ghost use Rattle.http_exchange.specs.Exchange.{Receives, IsLost};

use aws_world::Link;
use http_reply::{Outcome, ReplyReader};
use std::alloc::Global;

/// The most bytes of one piece.
pub const ROOM: usize = 16_384;

/// Receives on the live connection until the bytes decide the outcome, the peer ends or the link
/// fails. The reader has taken in no bytes yet.
pub fn receive_reply<L: Link>(
    alloc: Global,
    link: &mut L,
    head_only: bool,
    mut reader: ReplyReader,
) -> Outcome
    requires live { L.live link.old ≡ true }
    requires unread { WaitsAfter head_only [] reader }
    ensures live { L.live link.new ≡ true }
    ensures told { Tells (L.told link.old) (L.told link.new) (Receives head_only result) }
    ensures later { L.faults link.old ≤ L.faults link.new }
    ensures lost { IsLost result → Rose (L.faults link.old) (L.faults link.new) }
    ensures small { IsSmall result }
{
    let mut room = [0u8; ROOM];
    loop {
        match link.receive(&mut room) {
            Ok(0) => return reader.finish(None),
            Ok(count) => {
                let (piece, _) = room.split_at(count);
                if let Some(outcome) = reader.read(alloc, piece) {
                    return outcome;
                }
            }
            Err(fault) => return reader.finish(Some(fault)),
        }
    }
}
