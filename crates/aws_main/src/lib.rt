//! The command: from its words to its output.
#![tactic(auto)]

mod answering;
mod asking;
mod causes;
mod laws;
mod literals;
mod messages;
mod outputs;
mod plain_operations;
mod planning;
mod requests;
mod running;
mod sinks;

pub use causes::{Cause, Ending, UsageFault};
pub use laws::one_is_due;
pub use running::run;
