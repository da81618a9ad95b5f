ghost use Rattle.std.specs.Prelude.{◌≡◌, Some};
ghost use Rattle.jmes_eval.specs.declared.query_fault.QueryFault.TheVariants.{OutOfMemory as out_of_memory};
ghost use Rattle.jmes_eval.specs.FaultText.{fault_text};

use json_doc::OutOfMemory;
use std::alloc::{AllocError, AllocFailed};
use std::error::Error;
use std::fmt;

/// Why a query has no value for a document.
#[derive(Clone, Copy, Debug, PartialEq, Eq)]
pub enum QueryFault {
    /// A function was called with a value of another kind than it takes.
    TypeFault,
    /// The value of a function is no `Decimal`.
    NumberTooWide,
    OutOfMemory,
}

impl fmt::Display for QueryFault {
    ghost output = { λ fault. Some (fault_text fault) };

    fn fmt<W: fmt::Write>(&self, f: &mut fmt::Formatter<W>) -> fmt::Result {
        match self {
            QueryFault::TypeFault => f.write_str("A function doesn't take a value of this kind"),
            QueryFault::NumberTooWide => f.write_str("Number too wide"),
            QueryFault::OutOfMemory => f.write_str("Out of memory"),
        }
    }
}

impl Error for QueryFault {}

impl From<OutOfMemory> for QueryFault {
    ghost from_gives = { λ _ fault. fault ≡ out_of_memory };

    fn from(_error: OutOfMemory) -> QueryFault {
        QueryFault::OutOfMemory
    }
}

impl From<AllocError> for QueryFault {
    ghost from_gives = { λ _ fault. fault ≡ out_of_memory };

    fn from(_error: AllocError) -> QueryFault {
        QueryFault::OutOfMemory
    }
}

impl<T: Drop> From<AllocFailed<T>> for QueryFault {
    ghost from_gives = { λ _ fault. fault ≡ out_of_memory };

    fn from(_error: AllocFailed<T>) -> QueryFault {
        QueryFault::OutOfMemory
    }
}
