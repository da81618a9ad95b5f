//! What AWS's endpoint rules are made of: templates, calls of functions, paths into values, and the
//! patterns of regions.
#![tactic(auto)]

mod attributes;
mod characters;
mod expression;
mod function;
mod pattern;
mod properties;
mod seen;
mod template;

pub use attributes::{attribute, member};
pub use characters::{are_digits, are_letters, are_small, is_empty};
pub use expression::Expression;
pub use function::Function;
pub use pattern::{Part, fits, pattern_of};
pub use properties::{put, put_text};
pub use seen::{copied_text, items_at, text_at, text_or_empty};
pub use template::{Piece, Stand, name_and_path, pieces_of};
