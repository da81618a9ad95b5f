ghost use Rattle.std.specs.Prelude.{◌≡◌, Some};
ghost use Rattle.serializer.specs.declared.encode_fault.EncodeFault.TheVariants.{OutOfMemory as out_of_memory};
ghost use Rattle.serializer.specs.FaultText.{fault_text};

use std::error::Error;
use std::fmt;
use texts::{OutOfMemory, Text};

/// Why a value has no message. The text is the name of the first member, in the model's order, that can't
/// be sent.
#[derive(Debug, Drop)]
pub enum EncodeFault {
    /// It fills a label, and is absent or empty.
    EmptyLabel(Text),
    /// It fills a label of the host prefix, and is no part of a host's name.
    BadHostLabel(Text),
    /// A time in it is sent by RFC 822, and lies before 1970 or past 9999.
    TimeOutOfRange(Text),
    /// It is a header, and its name or value can't stand there.
    BadHeaderText(Text),
    OutOfMemory,
}

impl From<OutOfMemory> for EncodeFault {
    ghost from_gives = { λ _ fault. fault ≡ out_of_memory };

    fn from(_error: OutOfMemory) -> EncodeFault {
        EncodeFault::OutOfMemory
    }
}

impl fmt::Display for EncodeFault {
    ghost output = { λ fault. Some (fault_text fault) };

    fn fmt<W: fmt::Write>(&self, f: &mut fmt::Formatter<W>) -> fmt::Result {
        match self {
            EncodeFault::EmptyLabel(name) => write!(f, "Cannot encode member {name}: EmptyLabel"),
            EncodeFault::BadHostLabel(name) => {
                write!(f, "Cannot encode member {name}: BadHostLabel")
            }
            EncodeFault::TimeOutOfRange(name) => {
                write!(f, "Cannot encode member {name}: TimeOutOfRange")
            }
            EncodeFault::BadHeaderText(name) => {
                write!(f, "Cannot encode member {name}: BadHeaderText")
            }
            EncodeFault::OutOfMemory => f.write_str("Out of memory"),
        }
    }
}

impl Error for EncodeFault {}
