ghost use Rattle.std.specs.Prelude.{◌≡◌, ◌≤◌, Some, []};
ghost use Rattle.std.specs.Option.{option_map, option_copied};
ghost use Rattle.aws_world.specs.Told.{Tells};
ghost use Rattle.aws_world.specs.Moments.{with_moment, with_pause};
ghost use Rattle.aws_world.specs.MemClock.{moments_told, moments_due, first_moment, later_moments};

use crate::Clock;
use std::alloc::Global;
use std::collections::VecDeque;
use texts::List;

/// A clock that gives moments from a list and waits for nothing.
#[derive(Debug, Drop)]
pub struct MemClock {
    due: VecDeque<i64>,
    given: Vec<i64>,
    pauses: Vec<u64>,
    tells: bool,
}

impl MemClock {
    /// A clock that gives these moments in their order and repeats the last; without any it gives
    /// 0. It takes no memory.
    pub fn new(alloc: Global, moments: List<i64>) -> MemClock
        ensures told { ⟦<MemClock as Clock>⟧.told result ≡ Some (record { given = []; pauses = [] }) }
        ensures faults { ⟦<MemClock as Clock>⟧.faults result ≡ 0 }
        ensures due { moments_due result ≡ moments }
    {
        MemClock {
            due: VecDeque::from_vec(moments.into_vec()),
            given: Vec::new(alloc),
            pauses: Vec::new(alloc),
            tells: true,
        }
    }

    /// The moments given so far; None where the clock tells nothing for want of memory.
    pub fn given(&self) -> Option<&[i64]>
        ensures { option_copied result ≡ option_map (λ told. told.given) (⟦<MemClock as Clock>⟧.told self.now) }
    {
        if self.tells {
            Some(self.given.as_slice())
        } else {
            None
        }
    }

    /// The pauses asked for so far, in milliseconds; None where the clock tells nothing.
    pub fn pauses(&self) -> Option<&[u64]>
        ensures { option_copied result ≡ option_map (λ told. told.pauses) (⟦<MemClock as Clock>⟧.told self.now) }
    {
        if self.tells {
            Some(self.pauses.as_slice())
        } else {
            None
        }
    }
}

impl Clock for MemClock {
    ghost told = { moments_told };

    ghost faults = { λ _. 0 };

    fn now(&mut self) -> i64
        ensures given { Tells (moments_told self.old) (moments_told self.new)
            (λ before after. after ≡ with_moment result before) }

        // What this clock does beyond any clock.
        ensures next { result ≡ first_moment (moments_due self.old) }
        ensures due { moments_due self.new ≡ later_moments (moments_due self.old) }
    {
        let moment = next_moment(&mut self.due);
        if self.tells && self.given.push(moment).is_err() {
            self.tells = false;
        }
        moment
    }

    fn pause(&mut self, ms: u64)
        ensures paused { Tells (moments_told self.old) (moments_told self.new)
            (λ before after. after ≡ with_pause ms before) }
        ensures due { moments_due self.new ≡ moments_due self.old }
    {
        if self.tells && self.pauses.push(ms).is_err() {
            self.tells = false;
        }
    }
}

/// Takes the next moment, but leaves the last one.
fn next_moment(due: &mut VecDeque<i64>) -> i64
    ensures next { result ≡ first_moment due.old.items }
    ensures due { due.new.items ≡ later_moments due.old.items }
{
    if due.len() > 1 {
        return due.pop_front().unwrap_or(0);
    }
    due.front().copied().unwrap_or(0)
}
