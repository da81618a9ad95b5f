//! Texts, bytes, lists and pairs with distinct keys: the small types over vectors that contracts see
//! as lists, and the words in which contracts speak of them.
#![tactic(auto)]

mod blanks;
mod bytes;
mod cuts;
mod list;
mod marks;
mod memory;
mod order;
mod pairs;
mod text;

pub use blanks::trimmed;
pub use bytes::Bytes;
pub use cuts::{cut, cut_times};
pub use list::List;
pub use marks::{around_first, without_first, without_last};
pub use memory::OutOfMemory;
pub use order::{compare, order_is_that_of_bytes, put_in_order};
pub use pairs::{Pair, Pairs};
pub use text::Text;
