ghost use Rattle.std.specs.Prelude.{◌≡◌};
ghost use Rattle.resp_parser.specs.declared.body_fault.BodyFault.TheVariants.{OutOfMemory as out_of_memory};

use json_doc::{OutOfMemory, Text};
use std::alloc::AllocError;

/// Why a body or a member gives no value: what stands at this path isn't what the model says.
#[derive(Debug, Drop)]
pub(crate) enum BodyFault {
    At(Text),
    OutOfMemory,
}

impl From<OutOfMemory> for BodyFault {
    ghost from_gives = { λ _ fault. fault ≡ out_of_memory };

    fn from(_error: OutOfMemory) -> BodyFault {
        BodyFault::OutOfMemory
    }
}

impl From<AllocError> for BodyFault {
    ghost from_gives = { λ _ fault. fault ≡ out_of_memory };

    fn from(_error: AllocError) -> BodyFault {
        BodyFault::OutOfMemory
    }
}
