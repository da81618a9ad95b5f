//! The shorthand of structures, maps and lists on the command line: its trees, its grammar and the reader.
#![tactic(auto)]

mod begun;
mod fault;
mod fields;
mod laws;
mod marks;
mod places;
mod reader;
mod short;
mod stack;
mod steps;

pub use fault::ShortFault;
pub use laws::{shorthand_has_outcome, shorthand_is_unique};
pub use reader::shorthand;
pub use short::Short;
