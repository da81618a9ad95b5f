//! What a waiter knows before it calls its operation, and how it judges what a call came to.
#![tactic(auto)]

mod deciding;
mod fault;
mod laws;
mod matching;
mod plan;
mod planning;
#[cfg(test)]
mod tests;

pub use deciding::classify;
pub use fault::PlanFault;
pub use laws::row_has_plan_or_fault;
pub use matching::{Outcome, matched};
pub use model_files::State;
pub use plan::{Subject, Test, WaitPlan};
