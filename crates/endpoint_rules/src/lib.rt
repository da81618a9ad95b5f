//! AWS's endpoint rules: which endpoint the rule set of a service gives for its parameters.
#![tactic(auto)]

mod arn;
mod endpoint;
mod evaluation;
mod fault;
mod host_label;
mod kinds;
mod laws;
mod library;
mod parameters;
mod resolving;
mod rules;
mod scope;
mod stop;
mod urls;

pub use endpoint::{Endpoint, Param, Scheme};
pub use fault::EndpointFault;
pub use host_label::is_label;
pub use laws::{endpoints_have_outcome, escapes_are_plain, false_leaves_are_free};
pub use rule_sets::{
    MOST_LEAVES, Partitions, RuleFault, partitions_have_outcome, rules_have_outcome,
};
pub use rules::RuleSet;
pub use scope::Scope;
pub use stop::Stop;
pub use urls::endpoint_of;
