ghost use Rattle.std.specs.Prelude.{◌≡◌};
ghost use Rattle.endpoint_rules.specs.declared.stop.Stop.TheVariants as stop;

use std::alloc::AllocError;
use texts::OutOfMemory;

/// Why an expression has no value.
#[derive(Clone, Copy, Debug, PartialEq, Eq)]
pub enum Stop {
    /// A value is of another kind than its place needs.
    Clash,
    OutOfMemory,
}

impl From<OutOfMemory> for Stop {
    ghost from_gives = { λ _ e. e ≡ stop.OutOfMemory };

    fn from(_error: OutOfMemory) -> Stop {
        Stop::OutOfMemory
    }
}

impl From<AllocError> for Stop {
    ghost from_gives = { λ _ e. e ≡ stop.OutOfMemory };

    fn from(_error: AllocError) -> Stop {
        Stop::OutOfMemory
    }
}
