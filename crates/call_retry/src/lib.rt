//! Calls of a service with their retries: each attempt is signed at its own moment, and what retries may cost is
//! a quota that the caller keeps.
#![tactic(auto)]

mod asking;
mod attempts;
mod call_end;
mod caller;
mod calls;
mod class;
mod laws;
mod quota;
mod reading;
mod requests;
mod retry;
mod steps;

pub use call_end::CallEnd;
pub use caller::Caller;
pub use class::{Class, class_of};
pub use laws::{
    calls_are_bounded, calls_end_alike, classes_agree, message_is_one, messages_read_back,
    pauses_are_short, quota_stays,
};
pub use quota::Quota;
pub use retry::{Decision, Retry};
