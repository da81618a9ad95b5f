//! Requests from values: the message of HTTP that an operation sends for a value, by the protocols `json`
//! and `rest-json`, and the identifiers of members that have none.
#![tactic(auto)]

mod bodies;
mod encode_fault;
mod faults;
mod header_lists;
mod header_names;
mod headers;
mod labels;
mod laws;
mod members;
mod messages;
mod queries;
mod request;
mod tokens;

pub use encode_fault::EncodeFault;
pub use labels::Labelled;
pub use laws::{
    headers_are_clean, headers_are_named, labels_stay_in_place, parameters_stay_in_place,
    paths_are_there, paths_have_no_query, targets_are_visible, values_have_outcome,
};
pub use messages::message;
pub use tokens::{needs_token, with_token};
