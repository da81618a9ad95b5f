//! Replies of HTTP/1.1 as they come in: what the bytes received so far make of a reply.
#![tactic(auto)]

mod cuts;
mod fields;
mod heads;
mod kinds;
mod laws;
mod limits;
mod outcome;
mod reader;
mod steps;

pub use kinds::Kind;
pub use laws::{
    ended_is_whole, front_decides, has_one_outcome, outcome_is_computed, outcome_is_there,
    printed_is_whole,
};
pub use limits::{BODY_LIMIT, HEAD_LIMIT, TOTAL_LIMIT};
pub use outcome::Outcome;
pub use reader::ReplyReader;

#[cfg(test)]
mod tests;
