ghost use Rattle.std.specs.Prelude.{◌≡◌};
ghost use Rattle.json_doc.specs.declared.stop.Stop.TheVariants.{OutOfMemory as NoMemory};

use crate::OutOfMemory;

/// Why a reading ended without a value. The number counts the bytes of the input that are left
/// at the fault, so the caller of all finds the offset by a subtraction.
#[derive(Clone, Copy, Debug, PartialEq, Eq)]
pub enum Stop {
    Syntax(usize),
    TooDeep(usize),
    NumberTooWide(usize),
    OutOfMemory,
}

impl From<OutOfMemory> for Stop {
    ghost from_gives = { λ _ stop. stop ≡ NoMemory };

    fn from(_error: OutOfMemory) -> Stop {
        Stop::OutOfMemory
    }
}
