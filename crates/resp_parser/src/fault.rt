ghost use Rattle.std.specs.Prelude.{◌≡◌};
ghost use Rattle.resp_parser.specs.declared.fault.ReplyFault.TheVariants.{OutOfMemory as out_of_memory};

use json_doc::{OutOfMemory, Text};

/// Why a reply gives no document.
#[derive(Debug, Drop)]
pub enum ReplyFault {
    /// The service answered with an error.
    Service(ServiceError),
    /// The body, or a member, isn't what the model says, at this path. The path of the whole body is
    /// empty; below it stand names of members, keys and places, as in `Tags[0].Key`.
    BadBody(Text),
    /// A coding changed the body.
    Compressed,
    OutOfMemory,
}

/// An error of a service.
#[derive(Debug, Drop)]
pub struct ServiceError {
    pub code: Text,
    pub message: Text,
    pub status: u16,
    /// How many retries were made, where all that may be made were.
    pub retries: Option<u32>,
}

impl From<OutOfMemory> for ReplyFault {
    ghost from_gives = { λ _ fault. fault ≡ out_of_memory };

    fn from(_error: OutOfMemory) -> ReplyFault {
        ReplyFault::OutOfMemory
    }
}
