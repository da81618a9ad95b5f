ghost use Rattle.std.specs.Prelude.{◌≡◌, Some};
ghost use Rattle.shorthand.specs.FaultText.{fault_text};
ghost use Rattle.shorthand.specs.declared.fault.ShortFault.TheVariants as fault;
ghost use Rattle.shorthand.specs.declared.fault.Stop.TheVariants as stop;

use std::error::Error;
use std::fmt;
use texts::OutOfMemory;

/// Why a text is no shorthand.
#[derive(Clone, Copy, Debug, PartialEq, Eq)]
pub enum ShortFault {
    /// The offset in bytes, from 0: of the first byte with which no shorthand goes on, or of a key that
    /// stood before; the text's length where it ends too early.
    At(u64),
    OutOfMemory,
}

impl fmt::Display for ShortFault {
    ghost output = { λ fault. Some (fault_text fault) };

    fn fmt<W: fmt::Write>(&self, f: &mut fmt::Formatter<W>) -> fmt::Result {
        match self {
            ShortFault::At(at) => write!(f, "No shorthand at byte {at}"),
            ShortFault::OutOfMemory => f.write_str("Out of memory"),
        }
    }
}

impl Error for ShortFault {}

/// Why reading stops at a character.
#[derive(Clone, Copy)]
pub enum Stop {
    /// No shorthand goes on with it.
    Refused,
    /// It ends a key that stood before, of so many characters.
    RepeatedKey(usize),
    OutOfMemory,
}

impl From<OutOfMemory> for Stop {
    ghost from_gives = { λ _ e. e ≡ stop.OutOfMemory };

    fn from(_: OutOfMemory) -> Stop {
        Stop::OutOfMemory
    }
}
