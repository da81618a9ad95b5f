use texts::{Bytes, List, Text};

/// A request of HTTP before it is written out. Path and query are already escaped.
#[derive(Debug, Drop)]
pub struct Message {
    pub method: Text,
    /// The host, with `:` and the port where the port isn't the scheme's own.
    pub host: Text,
    pub path: Text,
    pub query: List<(Text, Text)>,
    /// The first is `Host`, whose value is `host`.
    pub headers: List<(Text, Text)>,
    pub body: Bytes,
}

/// A reply of HTTP. Names of headers stand as they were received; values are trimmed.
#[derive(Debug, Drop)]
pub struct Reply {
    pub status: u16,
    pub headers: List<(Text, Text)>,
    pub body: Bytes,
}

/// Where a connection goes to.
#[derive(Debug, Drop)]
pub struct Target {
    pub host: Text,
    pub port: u16,
}
