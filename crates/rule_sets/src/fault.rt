ghost use Rattle.std.specs.Prelude.{◌≡◌, Some};
ghost use Rattle.model_files.specs.FaultText.{place_text};
ghost use Rattle.rule_sets.specs.Faults.{bad_of};
ghost use Rattle.rule_sets.specs.FaultText.{rule_fault_text};
ghost use Rattle.rule_sets.specs.declared.fault.RuleFault.TheVariants as rule_fault;

use model_files::{ModelFault, Place};
use std::alloc::Global;
use std::error::Error;
use std::fmt;
use texts::{OutOfMemory, Text};

/// What is wrong with a rule set or with partitions.
#[derive(Debug, Drop)]
pub enum RuleFault {
    /// The first bad place: the keys and positions that lead there, joined by dots.
    Bad(Text),
    OutOfMemory,
}

/// The fault of a file, whatever is wrong at its place.
pub fn bad_at(alloc: Global, fault: ModelFault) -> RuleFault
    ensures { result ≡ bad_of fault }
{
    match fault {
        ModelFault::Missing(place) => bad(alloc, place),
        ModelFault::UnknownShape(place) => bad(alloc, place),
        ModelFault::WrongKind(place) => bad(alloc, place),
        ModelFault::Collides(place) => bad(alloc, place),
        ModelFault::OutOfMemory => RuleFault::OutOfMemory,
    }
}

fn bad(alloc: Global, place: Place) -> RuleFault
    ensures { result ≡ rule_fault.Bad (place_text place) }
{
    RuleFault::Bad(place.text(alloc))
}

impl fmt::Display for RuleFault {
    ghost output = { λ fault. Some (rule_fault_text fault) };

    fn fmt<W: fmt::Write>(&self, f: &mut fmt::Formatter<W>) -> fmt::Result {
        match self {
            RuleFault::Bad(place) => write!(f, "wrong value at {place}"),
            RuleFault::OutOfMemory => f.write_str("out of memory"),
        }
    }
}

impl Error for RuleFault {}

impl From<OutOfMemory> for RuleFault {
    ghost from_gives = { λ _ e. e ≡ rule_fault.OutOfMemory };

    fn from(_error: OutOfMemory) -> RuleFault {
        RuleFault::OutOfMemory
    }
}
