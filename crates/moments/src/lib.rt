//! Times as texts of the command line, and the instants that they name.
#![tactic(auto)]

mod digits;
mod forms;
mod instant;
mod laws;

pub use instant::moment;
pub use laws::{moments_are_told, moments_are_unique};
