//! AWS's endpoint rules, read: the rule set of a service as its leaves, and the partitions.
#![tactic(auto)]

mod fault;
mod judging;
mod judging_endpoints;
mod judging_partitions;
mod laws;
mod names;
mod partitions;
mod reading;
mod rule_set;

pub use fault::RuleFault;
pub use judging::RuleKind;
pub use laws::{partitions_have_outcome, rules_have_outcome};
pub use partitions::{Partition, Partitions};
pub use rule_set::{Answer, Condition, Leaf, MOST_LEAVES, Parameter, RuleSet};
