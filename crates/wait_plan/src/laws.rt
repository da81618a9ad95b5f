//! What is true of the plans of all rows.
ghost use Rattle.std.specs.Prelude.{◌⊎◌};
ghost use Rattle.model_files.specs.declared.waiters.WaiterRow.{WaiterRow};
ghost use Rattle.wait_plan.specs.declared.fault.PlanFault.{PlanFault};
ghost use Rattle.wait_plan.specs.declared.plan.WaitPlan.{WaitPlan};
ghost use Rattle.wait_plan.specs.Plans.{IsPlanOf, IsBad};

/// A row has a plan or a bad argument, and never both.
pub fn row_has_plan_or_fault()
    ensures one { (row : WaiterRow) → ((plan : WaitPlan) × IsPlanOf row plan) ⊎ ((f : PlanFault) × IsBad row.acceptors f) }
    ensures other { (row : WaiterRow) (plan : WaitPlan) (f : PlanFault) → IsPlanOf row plan → IsBad row.acceptors f → ⊥ }
{}
