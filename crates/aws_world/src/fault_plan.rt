ghost use Rattle.std.specs.Prelude.{◌≡◌, ◌≤◌, ◌↔◌, IsTrue, []};
ghost use Rattle.aws_world.specs.Told.{one_more};
ghost use Rattle.aws_world.specs.FaultPlan.{next_call, FailsNext, begin};

use texts::List;

/// The numbers, from 1, of the calls that are to fail, and the calls and faults so far.
#[derive(Debug, Drop)]
pub struct FaultPlan {
    fails: List<u64>,
    calls: u64,
    faults: u64,
}

impl FaultPlan {
    pub fn new(fails: List<u64>) -> FaultPlan
        ensures { result ≡ begin fails }
    {
        FaultPlan {
            fails,
            calls: 0,
            faults: 0,
        }
    }

    /// Counts a call, and answers whether it is one that fails.
    pub fn next_fails(&mut self) -> bool
        ensures due { IsTrue result ↔ FailsNext self.old }
        ensures counted { self.new ≡ record self.old { calls = next_call self.old } }
    {
        self.calls = self.calls.saturating_add(1);
        self.fails.as_slice().contains(&self.calls)
    }

    pub fn count_fault(&mut self)
        ensures later { self.old.faults ≤ self.new.faults }
        ensures counted { self.new ≡ record self.old { faults = one_more self.old.faults } }
    {
        self.faults = self.faults.saturating_add(1);
    }

    pub fn faults(&self) -> u64
        ensures { result ≡ self.now.faults }
    {
        self.faults
    }
}
