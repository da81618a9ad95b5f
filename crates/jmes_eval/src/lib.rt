//! The meaning of JMESPath queries.
#![tactic(auto)]

mod arguments;
mod elements;
mod equality;
mod evaluate;
mod keys;
mod kinds;
mod laws;
mod lists;
mod merging;
mod numbers;
mod operators;
mod orders;
mod places;
mod projected;
mod query_fault;
mod seen;
mod setting;
mod signature;
mod slices;
mod sorting;
mod text_functions;
mod tight;

pub use equality::same;
pub use evaluate::search;
pub use laws::set_is_found;
pub use query_fault::QueryFault;
pub use setting::set;
pub use signature::Form;
