ghost use Rattle.std.specs.Prelude.{◌≡◌, IfOk, IfErr};
ghost use Rattle.aws_main.specs.Causes.{HasFileCause, Refuses};
ghost use Rattle.aws_main.specs.Course.{IsPlanned, IsRefusal};
ghost use Rattle.texts.specs.Calls.{Answers};
ghost use Rattle.aws_main.specs.Due.{admitted, due_by, is_memory};

use crate::asking::{Asked, read_words};
use crate::causes::{Unread, UsageFault};
use crate::plain_operations::{PlainOperation, plain_operation};
use crate::requests::message;
use aws_world::{Env, Files};
use http_exchange::wire;
use json_doc::{Bytes, OutOfMemory, Text};
use model_store::{find_model, model_folders};
use service_model::{Model, Operation, Refusal};
use std::alloc::Global;

/// What a line asks for, and the bytes of its request.
#[derive(Debug, Drop)]
pub struct Planned {
    pub asked: Asked,
    pub operation: PlainOperation,
    pub request: Bytes,
}

/// All that comes before the exchange.
pub fn plan<F: Files>(
    alloc: Global,
    words: &[Text],
    env: &Env,
    files: &mut F,
) -> Result<Planned, Unread>
    ensures planned { IfOk result (IsPlanned words.now env.now.pairs (F.told files.old)) }
    ensures refused { IfErr result (IsRefusal words.now env.now.pairs (F.told files.old)) }
    ensures kept { F.told files.new ≡ F.told files.old }
    ensures cause { HasFileCause (F.faults files.old) (F.faults files.new) result }
{
    let asked = match read_words(alloc, words) {
        Ok(asked) => asked,
        Err(refusal) => return Err(refusal.into()),
    };
    let folders = model_folders(alloc, env)?;
    let found = match find_model(alloc, files, folders.as_slice(), &asked.service) {
        Ok(found) => found,
        Err(refusal) => return Err(refusal.into()),
    };
    request(alloc, asked, &found.model)
}

/// The request of what is asked for, by the service's model.
fn request(alloc: Global, asked: Asked, model: &Model) -> Result<Planned, Unread>
    ensures { Answers is_memory (λ planned. planned) result (due_by asked model.now) }
{
    let operation = match admitted(alloc, &asked.command, model) {
        Ok(operation) => operation,
        Err(refusal) => return Err(refusal),
    };
    let operation = match plain_operation(alloc, model, operation) {
        Ok(operation) => operation,
        Err(refusal) => return Err(refusal.into()),
    };
    let request = wire(alloc, &message(alloc, &asked, &operation)?)?;
    Ok(Planned {
        asked,
        operation,
        request,
    })
}

/// The operation of a command, where it can be called.
fn admitted<'a>(alloc: Global, command: &Text, model: &'a Model) -> Result<&'a Operation, Unread>
    ensures { Answers is_memory (λ operation. operation.now) result (admitted command.now model.now) }
{
    let Some(operation) = model.operation(command) else {
        return Err(unknown_operation(alloc, command));
    };
    match model.admit(operation) {
        Ok(()) => Ok(operation),
        Err(refusal) => Err(not_admitted(alloc, refusal)),
    }
}

fn unknown_operation(alloc: Global, command: &Text) -> Unread
    ensures { Refuses (Unread.Usage (UsageFault.UnknownOperation command.now)) result }
{
    match command.copy(alloc) {
        Ok(command) => Unread::Usage(UsageFault::UnknownOperation(command)),
        Err(_) => Unread::OutOfMemory,
    }
}

fn not_admitted(alloc: Global, refusal: &Refusal) -> Unread
    ensures { Refuses (Unread.NotAdmitted refusal.now) result }
{
    match refusal_copy(alloc, refusal) {
        Ok(refusal) => Unread::NotAdmitted(refusal),
        Err(_) => Unread::OutOfMemory,
    }
}

/// An equal refusal.
fn refusal_copy(alloc: Global, refusal: &Refusal) -> Result<Refusal, OutOfMemory>
    ensures { IfOk result (λ made. made ≡ refusal.now) }
{
    Ok(match refusal {
        Refusal::Protocol => Refusal::Protocol,
        Refusal::Events => Refusal::Events,
        Refusal::Signature => Refusal::Signature,
        Refusal::Checksum => Refusal::Checksum,
        Refusal::Discovery => Refusal::Discovery,
        Refusal::JsonValue => Refusal::JsonValue,
        Refusal::BlobOutput => Refusal::BlobOutput,
        Refusal::SameArgument(name) => Refusal::SameArgument(name.copy(alloc)?),
    })
}
