ghost use Rattle.std.specs.Prelude.{◌≡◌, IfOk};
ghost use Rattle.model_files.specs.Names.{command_name};

use service_model::command_name;
use std::alloc::Global;
use texts::{OutOfMemory, Text};

/// The name on the command line of a member with this name in a model: `EC2InstanceId` is
/// `ec2-instance-id`. It is made as the names of commands are.
pub fn arg_name(alloc: Global, name: &Text) -> Result<Text, OutOfMemory>
    ensures { IfOk result (λ made. made ≡ command_name name.now) }
{
    command_name(alloc, name)
}
