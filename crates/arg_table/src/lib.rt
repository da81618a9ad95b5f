//! The words of a command line: as a command with its settings, and as the arguments of its operation.
#![tactic(auto)]

mod command;
mod counts;
mod fault;
mod given;
mod laws;
mod lines;
mod meaning;
mod names;
mod settings;
mod table;
mod words;

pub use command::{CommandHead, head};
pub use fault::UsageFault;
pub use given::Given;
pub use laws::{a_line_is_one, a_member_stands_once, the_last_counts};
pub use lines::{Arg, Line};
pub use meaning::{Meaning, Meant};
pub use names::arg_name;
pub use settings::Setting;
pub use table::{ArgTable, Argument, Paging, Takes};
pub use words::{Group, OptionWord};
