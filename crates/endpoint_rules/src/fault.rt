ghost use Rattle.std.specs.Prelude.{◌≡◌, Some};
ghost use Rattle.endpoint_rules.specs.FaultText.{endpoint_fault_text};
ghost use Rattle.endpoint_rules.specs.declared.fault.EndpointFault.TheVariants as endpoint_fault;

use std::alloc::AllocError;
use std::error::Error;
use std::fmt;
use texts::{OutOfMemory, Text};

/// Why there is no endpoint.
#[derive(Debug, Drop)]
pub enum EndpointFault {
    /// The rules answer with this error.
    RuleError(Text),
    /// No rule holds.
    NoRule,
    /// The URL is none of an endpoint.
    BadUrl,
    /// The rule at this place has a value of another kind than its place needs.
    TypeClash(Text),
    OutOfMemory,
}

impl fmt::Display for EndpointFault {
    ghost output = { λ fault. Some (endpoint_fault_text fault) };

    fn fmt<W: fmt::Write>(&self, f: &mut fmt::Formatter<W>) -> fmt::Result {
        match self {
            EndpointFault::RuleError(text) => write!(f, "{text}"),
            EndpointFault::NoRule => f.write_str("no rule holds"),
            EndpointFault::BadUrl => f.write_str("no URL of an endpoint"),
            EndpointFault::TypeClash(place) => write!(f, "value of another kind at {place}"),
            EndpointFault::OutOfMemory => f.write_str("out of memory"),
        }
    }
}

impl Error for EndpointFault {}

impl From<OutOfMemory> for EndpointFault {
    ghost from_gives = { λ _ e. e ≡ endpoint_fault.OutOfMemory };

    fn from(_error: OutOfMemory) -> EndpointFault {
        EndpointFault::OutOfMemory
    }
}

impl From<AllocError> for EndpointFault {
    ghost from_gives = { λ _ e. e ≡ endpoint_fault.OutOfMemory };

    fn from(_error: AllocError) -> EndpointFault {
        EndpointFault::OutOfMemory
    }
}
