use crate::LinkFault;
use texts::{Bytes, Text};

/// A connection: where it went to, what was sent and received, and how it ended.
#[derive(Debug, Drop)]
pub struct Connection {
    pub host: Text,
    pub port: u16,
    pub sent: Bytes,
    pub received: Bytes,
    /// Whether the peer ended.
    pub ended: bool,
    pub fault: Option<LinkFault>,
}
