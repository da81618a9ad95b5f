ghost use Rattle.std.specs.Prelude.{Some};
ghost use Rattle.json_doc.specs.FaultText.{fault_text};

use std::error::Error;
use std::fmt;

/// Why bytes were not read as a document. The number is the offset of the fault in bytes, from 0.
#[derive(Clone, Copy, Debug, PartialEq, Eq)]
pub enum ReadFault {
    /// Here stands no byte that may go on (RFC 8259), or the bytes end too early.
    Syntax(u64),
    /// Here an array or an object opens inside 100 others.
    TooDeep(u64),
    /// Here a number begins whose value is no `Decimal`.
    NumberTooWide(u64),
    OutOfMemory,
}

impl fmt::Display for ReadFault {
    ghost output = { λ fault. Some (fault_text fault) };

    fn fmt<W: fmt::Write>(&self, f: &mut fmt::Formatter<W>) -> fmt::Result {
        match self {
            ReadFault::Syntax(at) => write!(f, "Not JSON at byte {at}"),
            ReadFault::TooDeep(at) => write!(f, "Nested too deep at byte {at}"),
            ReadFault::NumberTooWide(at) => write!(f, "Number too wide at byte {at}"),
            ReadFault::OutOfMemory => f.write_str("Out of memory"),
        }
    }
}

impl Error for ReadFault {}
