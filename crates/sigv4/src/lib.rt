//! AWS Signature Version 4: HMAC with SHA-256, and requests signed at a moment.
#![tactic(auto)]

mod authorization;
mod canonical;
mod canonical_headers;
mod header_names;
mod header_values;
mod keyed_hash;
mod laws;
mod moments;
mod parameters;
mod paths;
mod pieces;
mod sign_fault;
mod signer;
mod signing;

pub use keyed_hash::hmac;
pub use laws::has_one_signed_form;
pub use sign_fault::SignFault;
pub use signer::Signer;
pub use signing::{sign, signed_headers};
