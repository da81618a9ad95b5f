//! One HTTP/1.1 exchange: a request's bytes, one connection, and the outcome.
#![tactic(auto)]

mod exchanging;
mod laws;
mod receiving;
mod sending;
mod writing;

pub use exchanging::exchange;
pub use http_reply::Outcome;
pub use laws::{exchanges_are_counted, exchanges_join, requests_read_back};
pub use writing::{wire, wire_with};
