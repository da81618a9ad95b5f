//! The values that texts, shorthand and JSON documents stand for at the shapes of a model.
#![tactic(auto)]

mod fault;
mod json_values;
mod kept;
mod kinds;
mod laws;
mod numbers;
mod paths;
mod place;
mod scalars;
mod short_values;
mod text_values;

pub use fault::{ArgFault, ValueKind};
pub use json_values::{from_json, value_of_document};
pub use kept::kept_document;
pub use kinds::{is_blob, is_boolean, is_list};
pub use laws::times_are_told;
pub use moments::moment;
pub use paths::{named, under_item};
pub use place::{Place, shape_at};
pub use scalars::here;
pub use shorthand::{Short, ShortFault, shorthand};
pub use text_values::{document_in, value_of_json, value_of_list, value_of_sole, value_of_text};
