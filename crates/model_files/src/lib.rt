//! What all of botocore's model files share: parts of a document by their keys, faults with their
//! places, the names of commands. And the two files of rows: `paginators-1.json` and
//! `waiters-2.json`.
#![tactic(auto)]

mod characters;
mod fault;
mod names;
mod paginators;
mod reading;
mod waiters;

pub use characters::{chars_of, text_of};
pub use fault::{ModelFault, Place, inside, move_below};
pub use names::{Stage, command_name};
pub use paginators::{NamedRow, PagerRow, Paginators};
pub use reading::{
    ascii_text, copied, flag_at, is_true_at, items, maybe_object, maybe_text, maybe_texts, missing,
    missing_below, move_to, needed, object, object_at, text, text_at, wrong, wrong_kind,
};
pub use waiters::{Acceptor, Matcher, State, WaiterRow, Waiters};
