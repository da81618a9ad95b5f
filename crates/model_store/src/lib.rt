//! The files of AWS's services: the folders that hold them, the newest version of a service, and what
//! its model, paginators, waiters and endpoint rules say; and the partitions of AWS.
#![tactic(auto)]

mod contents;
mod fault;
mod finding;
mod folders;
mod laws;
mod literals;
mod searching;
#[cfg(test)]
mod tests;

pub use fault::Unread;
pub use finding::{
    FoundModel, find_model, find_paginators, find_partitions, find_rules, find_waiters,
};
pub use folders::model_folders;
pub use laws::{newest_is_first, one_file_is_due, one_model_is_due};
pub use searching::{MOST_FILE_BYTES, ModelFile, Version};
