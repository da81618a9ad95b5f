//! The outside world of the command: files, one connection at a time, the clock, random words and
//! output. Each is a trait whose contracts speak of what the object holds, so that a caller's
//! contract can say what was sent, asked for and written.
#![tactic(auto)]

mod clock;
mod connection;
mod connection_log;
mod dice;
mod env;
mod fault_plan;
mod files;
mod folder;
mod headers;
mod link;
mod list_dice;
mod mem_clock;
mod mem_files;
mod mem_sink;
mod message;
mod script_link;
mod sink;
mod talk;
#[cfg(test)]
mod tests;

pub use clock::Clock;
pub use connection::Connection;
pub use connection_log::ConnectionLog;
pub use dice::{Dice, DiceFault};
pub use env::Env;
pub use fault_plan::FaultPlan;
pub use files::{FileEnd, Files};
pub use headers::header;
pub use link::{Link, LinkFault};
pub use list_dice::ListDice;
pub use mem_clock::MemClock;
pub use mem_files::MemFiles;
pub use mem_sink::MemSink;
pub use message::{Message, Reply, Target};
pub use script_link::ScriptLink;
pub use sink::{Sink, SinkFault};
pub use talk::{Script, Talk};
