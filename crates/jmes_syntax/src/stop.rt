ghost use Rattle.std.specs.Prelude.{◌≡◌};
ghost use Rattle.jmes_syntax.specs.declared.stop.Stop.TheVariants.{OutOfMemory as NoMemory};

use json_doc::OutOfMemory;

/// Why reading tokens ended without a tree. The number counts the tokens that are left at the fault.
#[derive(Clone, Copy, Debug, PartialEq, Eq)]
pub enum Stop {
    Syntax(usize),
    UnknownFunction(usize),
    Arity(usize),
    OutOfMemory,
}

impl From<OutOfMemory> for Stop {
    ghost from_gives = { λ _ stop. stop ≡ NoMemory };

    fn from(_error: OutOfMemory) -> Stop {
        Stop::OutOfMemory
    }
}
