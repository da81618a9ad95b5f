//! Typed values: what arguments denote and page tokens hold, before it is sent. A value is judged
//! against a shape of a model, with all of its faults in their order.
#![tactic(auto)]

mod fault;
mod finding;
mod fitting;
mod flat;
mod judging;
mod kinds;
mod laws;
mod lines;
mod node;
mod paths;
mod sizes;
mod typed;
mod validation;
mod wanted;
mod wire;

pub use fault::ValueFault;
pub use fitting::fits_flat;
pub use flat::Flat;
pub use judging::validate_flat;
pub use laws::{fits_without_faults, read_values_fit, table_is_of_one_value};
pub use lines::{fault_line, report};
pub use typed::{Entries, Typed};
pub use validation::validate;
pub use wanted::Wanted;
pub use wire::{from_wire, to_doc};
