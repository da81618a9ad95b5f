ghost use Rattle.std.specs.Prelude.{◌≡◌, ◌<◌, ◌≤◌, ◌↔◌, Some, [], ◌++◌, length, take, IfOk, OnOk, OnErr, IsErr};
ghost use Rattle.std.specs.Option.{option_copied};
ghost use Rattle.aws_world.specs.Told.{Tells, HasCause, one_more};
ghost use Rattle.aws_world.specs.FaultPlan.{FailsNext, AddsCall, begin};
ghost use Rattle.aws_world.specs.MemSink.{bytes_taken, plan_of};

use crate::fault_plan::FaultPlan;
use crate::{Sink, SinkFault};
use std::alloc::Global;
use texts::List;

/// A sink that keeps the bytes in memory.
#[derive(Debug, Drop)]
pub struct MemSink {
    bytes: Vec<u8>,
    tells: bool,
    plan: FaultPlan,
}

impl MemSink {
    /// An empty sink, whose calls of these numbers fail. It takes no memory.
    pub fn new(alloc: Global, fails: List<u64>) -> MemSink
        ensures told { ⟦<MemSink as Sink>⟧.told result ≡ Some [] }
        ensures faults { ⟦<MemSink as Sink>⟧.faults result ≡ 0 }
        ensures plan { plan_of result ≡ begin fails }
    {
        MemSink {
            bytes: Vec::new(alloc),
            tells: true,
            plan: FaultPlan::new(fails),
        }
    }

    /// The bytes taken so far; None where the sink tells nothing for want of memory.
    pub fn bytes(&self) -> Option<&[u8]>
        ensures { option_copied result ≡ ⟦<MemSink as Sink>⟧.told self.now }
    {
        if self.tells {
            Some(self.bytes.as_slice())
        } else {
            None
        }
    }

    pub fn faults(&self) -> u64
        ensures { result ≡ ⟦<MemSink as Sink>⟧.faults self.now }
    {
        self.plan.faults()
    }
}

impl Sink for MemSink {
    ghost told = { bytes_taken };

    ghost faults = { λ sink. (plan_of sink).faults };

    /// Takes the whole piece, but for the calls that are to fail.
    fn write(&mut self, piece: &[u8]) -> Result<usize, SinkFault>
        requires { 0 < length piece.now }
        ensures some { IfOk result (λ count. 0 < count) }
        ensures within { IfOk result (λ count. count ≤ length piece.now) }
        ensures taken { IfOk result (λ count. Tells (bytes_taken self.old) (bytes_taken self.new)
            (λ before after. after ≡ before ++ take count piece.now)) }
        ensures failed { OnErr result (Tells (bytes_taken self.old) (bytes_taken self.new)
            (λ before after. after ≡ before)) }
        ensures cause { HasCause (plan_of self.old).faults (plan_of self.new).faults result }

        // What this sink does beyond any sink.
        ensures whole { IfOk result (λ count. count ≡ length piece.now) }
        ensures planned { IsErr result ↔ FailsNext (plan_of self.old) }
        ensures counted { AddsCall (plan_of self.old) (plan_of self.new) }
        ensures risen { OnErr result ((plan_of self.new).faults ≡ one_more (plan_of self.old).faults) }
        ensures level { OnOk result ((plan_of self.new).faults ≡ (plan_of self.old).faults) }
    {
        if self.plan.next_fails() {
            self.plan.count_fault();
            return Err(SinkFault);
        }
        if self.tells && self.bytes.extend_from_slice(piece).is_err() {
            self.tells = false;
        }
        Ok(piece.len())
    }
}
