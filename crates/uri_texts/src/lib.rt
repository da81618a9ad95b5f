//! The texts of request URIs: percent-escapes, templates with labels in braces, and the constants of a
//! query.
#![tactic(auto)]

mod escapes;
mod query;
mod templates;

pub use escapes::{Slashes, escaped, push_escaped};
pub use query::constants;
pub use templates::{Piece, pieces};
