//! Values as they are sent: as texts where they stand in labels, queries and headers, and as JSON in a body.
//! A value's shape and its member say how its bytes, times and members are written.
#![tactic(auto)]

mod dense;
mod fields;
mod json_parts;
mod lost_times;
mod scalars;
mod slot;
mod writing;

pub use dense::push_dense;
pub use fields::{Spot, is_in_body, member_named, value_of};
pub use json_parts::push_quoted;
pub use lost_times::is_lost;
pub use scalars::{base64_text, text_at};
pub use slot::{Slot, shape_at};
pub use writing::{push_members, push_value};
