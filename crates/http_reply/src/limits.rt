/// Bytes of all heads of a reply together, trailers included.
pub const HEAD_LIMIT: usize = 65_536;

/// Lines of a head with its empty line: a status line, 100 fields, and the empty one.
pub const LINE_LIMIT: usize = 102;

/// Fields of a head.
pub const FIELD_LIMIT: usize = 100;

/// Bytes of a line before a chunk, with its line end.
pub const CHUNK_LINE_LIMIT: usize = 4_096;

/// Bytes of a body.
pub const BODY_LIMIT: usize = 67_108_864;

/// Bytes that one exchange receives.
pub const TOTAL_LIMIT: usize = 268_435_456;
