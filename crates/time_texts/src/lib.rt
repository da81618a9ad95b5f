//! Moments as texts: seconds since 1970, ISO 8601 in both of its forms, and RFC 822. A moment is a number of microseconds since
//! 1970 begins, in UTC without leap seconds.
#![tactic(auto)]

mod basic;
mod civil;
mod digits;
mod iso8601;
mod moments;
mod rfc822;

pub use basic::{push_basic, push_basic_date};
pub use civil::{CivilDate, civil_date};
pub use iso8601::push_iso8601;
pub use moments::unix_seconds;
pub use rfc822::{has_rfc822, push_rfc822};
