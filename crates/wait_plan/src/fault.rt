ghost use Rattle.std.specs.Prelude.{◌≡◌, Some};
ghost use Rattle.wait_plan.specs.declared.fault.PlanFault.TheVariants as fault;
ghost use Rattle.wait_plan.specs.FaultText.{fault_text};

use json_doc::{OutOfMemory, Text};
use std::error::Error;
use std::fmt;

/// Why a waiter's row has no plan.
#[derive(Debug, Drop)]
pub enum PlanFault {
    /// The field at this place, from the row on, is no expression.
    Bad(Text),
    OutOfMemory,
}

impl fmt::Display for PlanFault {
    ghost output = { λ fault. Some (fault_text fault) };

    fn fmt<W: fmt::Write>(&self, f: &mut fmt::Formatter<W>) -> fmt::Result {
        match self {
            PlanFault::Bad(place) => write!(f, "No expression at {place}"),
            PlanFault::OutOfMemory => f.write_str("Out of memory"),
        }
    }
}

impl Error for PlanFault {}

impl From<OutOfMemory> for PlanFault {
    ghost from_gives = { λ _ e. e ≡ fault.OutOfMemory };

    fn from(_error: OutOfMemory) -> PlanFault {
        PlanFault::OutOfMemory
    }
}
