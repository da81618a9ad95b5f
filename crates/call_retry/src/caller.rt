ghost use Rattle.std.specs.Prelude.{◌≡◌, ◌≤◌, false, List};
ghost use Rattle.aws_world.specs.Told.{Rose, Tells};
ghost use Rattle.service_model.specs.Kept.{IsOperation};
ghost use Rattle.call_retry.specs.Attempts.{Attempt};
ghost use Rattle.call_retry.specs.Callers.{order_of};
ghost use Rattle.call_retry.specs.Calls.{AddsConnections, AddsMoments, AddsWords, IsCall};
ghost use Rattle.call_retry.specs.Ends.{HasShortAnswer, IsDiceFault, IsLostEnd};
ghost use Rattle.call_retry.specs.Inside.{unencoded_as};

use crate::asking::Asking;
use crate::call_end::CallEnd;
use crate::calls::call;
use crate::quota::Quota;
use aws_world::{Clock, Dice, Link, Target};
use endpoint_rules::Endpoint;
use serializer::{EncodeFault, message};
use service_model::{Model, Operation};
use sigv4::Signer;
use std::alloc::Global;
use typed_value::Typed;

/// Who calls an operation of a service: what is asked, whom and how, and the outside that is used for it.
#[derive(Drop)]
pub struct Caller<'a, 'l, 'c, 'd, L: Link, C: Clock, D: Dice> {
    pub model: &'a Model,
    pub op: &'a Operation,
    /// Stands in the messages.
    pub endpoint: &'a Endpoint,
    /// Where the connections go to.
    pub target: &'a Target,
    /// Who signs the requests; None where they are sent unsigned.
    pub signer: Option<&'a Signer>,
    /// The most attempts of a call.
    pub limit: u32,
    /// What retries may still cost, over all calls.
    pub quota: Quota,
    pub link: &'l mut L,
    pub clock: &'c mut C,
    pub dice: &'d mut D,
}

impl<'a, 'l, 'c, 'd, L: Link, C: Clock, D: Dice> Caller<'a, 'l, 'c, 'd, L, C, D> {
    /// Makes one call for a value, with its retries: the value's message is sent, each time signed at a moment that
    /// is read for it, until an attempt is final, as many were made as are allowed, or the quota doesn't suffice for
    /// another. Before a retry a random word is drawn for the pause.
    pub fn ask(&mut self, alloc: Global, value: &Typed) -> CallEnd
        requires operation { IsOperation self.old.model.now.shapes self.old.op.now }
        requires limit { 1 ≤ self.old.limit }
        requires none_live { L.live self.old.link.now ≡ false }
        ensures none_live { L.live self.new.link.now ≡ false }
        ensures called { (attempts : List Attempt)
            × IsCall (order_of self.old) value.now self.old.quota attempts result self.new.quota
            × Tells (L.told self.old.link.now) (L.told self.new.link.now) (AddsConnections (order_of self.old) attempts)
            × Tells (C.told self.old.clock.now) (C.told self.new.clock.now) (AddsMoments attempts)
            × Tells (D.told self.old.dice.now) (D.told self.new.dice.now) (AddsWords attempts) }
        ensures same_order { order_of self.new ≡ order_of self.old }
        ensures same_link { self.new.link.ghost_name ≡ self.old.link.ghost_name }
        ensures same_clock { self.new.clock.ghost_name ≡ self.old.clock.ghost_name }
        ensures same_dice { self.new.dice.ghost_name ≡ self.old.dice.ghost_name }
        ensures link_later { L.faults self.old.link.now ≤ L.faults self.new.link.now }
        ensures clock_later { C.faults self.old.clock.now ≤ C.faults self.new.clock.now }
        ensures dice_later { D.faults self.old.dice.now ≤ D.faults self.new.dice.now }
        ensures lost { IsLostEnd result → Rose (L.faults self.old.link.now) (L.faults self.new.link.now) }
        ensures no_word { IsDiceFault result → Rose (D.faults self.old.dice.now) (D.faults self.new.dice.now) }
        ensures short { HasShortAnswer result }
    {
        let message = match message(alloc, self.model, self.op, value, self.endpoint) {
            Ok(message) => message,
            Err(fault) => return unencoded(fault),
        };
        let asking = Asking {
            model: self.model,
            op: self.op,
            endpoint: self.endpoint,
            target: self.target,
            signer: self.signer,
            limit: self.limit,
        };
        call(
            alloc,
            asking,
            &message,
            &mut self.quota,
            self.link,
            self.clock,
            self.dice,
        )
    }
}

/// Why a value has no message, as an end.
fn unencoded(fault: EncodeFault) -> CallEnd
    ensures { result ≡ unencoded_as fault }
{
    match fault {
        EncodeFault::OutOfMemory => CallEnd::OutOfMemory,
        others => CallEnd::Encode(others),
    }
}
