//! The attempts of a call, one after another.
ghost use Rattle.std.specs.Prelude.{◌≡◌, ◌≤◌, false, List};
ghost use Rattle.aws_world.specs.Told.{Rose, Tells};
ghost use Rattle.service_model.specs.Kept.{IsOperation};
ghost use Rattle.call_retry.specs.Attempts.{Attempt};
ghost use Rattle.call_retry.specs.Calls.{AddsConnections, AddsMoments, AddsWords, CallsFrom};
ghost use Rattle.call_retry.specs.Ends.{HasShortAnswer, IsDiceFault, IsLostEnd};
ghost use Rattle.call_retry.specs.Inside.{order_asked};

use crate::asking::Asking;
use crate::attempts::attempt;
use crate::call_end::CallEnd;
use crate::quota::Quota;
use crate::steps::{Step, Turn, next_step};
use aws_world::{Clock, Dice, Link, Message};
use std::alloc::Global;

/// Sends the message, and again as long as retries are due, and answers how that ended.
pub fn call<L: Link, C: Clock, D: Dice>(
    alloc: Global,
    asking: Asking<'_>,
    message: &Message,
    quota: &mut Quota,
    link: &mut L,
    clock: &mut C,
    dice: &mut D,
) -> CallEnd
    requires operation { IsOperation asking.model.now.shapes asking.op.now }
    requires limit { 1 ≤ asking.limit }
    requires none_live { L.live link.old ≡ false }
    ensures none_live { L.live link.new ≡ false }
    ensures made { (attempts : List Attempt) × CallsFrom (order_asked asking.entry) message.now 1 quota.old 1 attempts result quota.new
        × Tells (L.told link.old) (L.told link.new) (AddsConnections (order_asked asking.entry) attempts)
        × Tells (C.told clock.old) (C.told clock.new) (AddsMoments attempts)
        × Tells (D.told dice.old) (D.told dice.new) (AddsWords attempts) }
    ensures link_later { L.faults link.old ≤ L.faults link.new }
    ensures clock_later { C.faults clock.old ≤ C.faults clock.new }
    ensures dice_later { D.faults dice.old ≤ D.faults dice.new }
    ensures lost { IsLostEnd result → Rose (L.faults link.old) (L.faults link.new) }
    ensures no_word { IsDiceFault result → Rose (D.faults dice.old) (D.faults dice.new) }
    ensures short { HasShortAnswer result }
{
    let mut turn = Turn {
        number: 1,
        limit: asking.limit,
        back: 1,
    };
    loop {
        let came = attempt(alloc, asking, message, link, clock);
        match next_step(turn, came, quota, clock, dice) {
            Step::Ends(end) => return end,
            Step::Again(cost) => {
                turn.number += 1;
                turn.back = cost;
            }
        }
    }
}
