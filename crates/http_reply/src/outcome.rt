use aws_world::{LinkFault, Reply};

/// What came of an exchange.
#[derive(Debug, Drop)]
pub enum Outcome {
    /// A whole reply.
    Whole(Reply),
    /// The connection failed before the bytes decided.
    Lost(LinkFault),
    /// The peer ended before the reply was whole.
    Cut,
    /// The bytes are no reply.
    Malformed,
    /// The reply passes a limit.
    TooLarge,
    OutOfMemory,
}
