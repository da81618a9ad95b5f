use aws_world::LinkFault;
use json_doc::{Doc, Text};
use resp_parser::ServiceError;
use serializer::EncodeFault;

/// How a call ended.
#[derive(Debug, Drop)]
pub enum CallEnd {
    /// The document of a good reply, and the reply's status.
    Answer(Doc, u16),
    /// The value has no request, so nothing was sent.
    Encode(EncodeFault),
    /// The service answered with an error.
    Service(ServiceError),
    /// The connection failed.
    Lost(LinkFault),
    /// The peer ended before its reply was whole.
    Cut,
    /// The reply is no reply of HTTP.
    Malformed,
    /// The reply passes a limit.
    TooLarge,
    /// The reply isn't what the model says, at this path.
    BadReply(Text),
    /// A coding changed the reply's body.
    Compressed,
    /// The clock gave a moment for which there is no signature.
    BadClock(i64),
    /// No random word was given for a retry.
    DiceFault,
    OutOfMemory,
}
