//! Replies of services as documents: the members that the model knows, in its order, or the error that the
//! service tells of. A reply that the model doesn't fit is refused with the path of its first fault.
#![tactic(auto)]

mod bodies;
mod body_fault;
mod errors;
mod fault;
mod fault_texts;
mod headers;
mod keeping;
mod kinds;
mod laws;
mod members;
mod parsing;
mod paths;
mod unions;
mod values;

pub use fault::{ReplyFault, ServiceError};
pub use fault_texts::{fault_text, service_text};
pub use laws::{
    head_has_one_answer, kept_has_kinds, lists_are_short, members_are_free, reply_has_one_answer,
};
pub use parsing::{parse, parse_head};
