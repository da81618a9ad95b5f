ghost use Rattle.std.specs.Prelude.{Some};
ghost use Rattle.jmes_syntax.specs.FaultText.{fault_text};

use std::error::Error;
use std::fmt;

/// Why a text is no expression. The number is the offset of the fault in bytes, from 0.
#[derive(Clone, Copy, Debug, PartialEq, Eq)]
pub enum ParseFault {
    /// No expression goes on with the token that begins here, or the text ends too early.
    Syntax(u64),
    /// Here stands the name of a call, and no function has it.
    UnknownFunction(u64),
    /// Here stands the name of a function that doesn't take so many arguments.
    Arity(u64),
    OutOfMemory,
}

impl fmt::Display for ParseFault {
    ghost output = { λ fault. Some (fault_text fault) };

    fn fmt<W: fmt::Write>(&self, f: &mut fmt::Formatter<W>) -> fmt::Result {
        match self {
            ParseFault::Syntax(at) => write!(f, "No expression at byte {at}"),
            ParseFault::UnknownFunction(at) => write!(f, "Unknown function at byte {at}"),
            ParseFault::Arity(at) => write!(f, "Wrong number of arguments at byte {at}"),
            ParseFault::OutOfMemory => f.write_str("Out of memory"),
        }
    }
}

impl Error for ParseFault {}
