ghost use Rattle.std.specs.Prelude.{◌≡◌, ◌⊎◌, ◌≤◌, ◌++◌, OnOk, OnErr, encode_utf8_all};
ghost use Rattle.std.specs.Str.{chars};
ghost use Rattle.aws_world.specs.Told.{Tells, HasCause, Rose};
ghost use Rattle.aws_main.specs.Causes.{GainsFront};
ghost use Rattle.aws_main.specs.Messages.{Says, message_bytes, bad_model_around, lost_start, refusal_name, unknown_name, url_of};

use crate::causes::{Cause, UsageFault};
use crate::sinks::write_all;
use aws_world::{LinkFault, Sink, SinkFault};
use json_doc::Text;
use service_model::Refusal;

/// What stands before the name that is in no model file.
const USAGE: &[u8] =
    b"usage: aws [settings] SERVICE OPERATION [arguments]\naws: error: Invalid choice: '";

/// Writes a cause's message: an empty line, its text and a line end, and nothing where all of the
/// work was done. A fault of the sink ends the writing and changes nothing else. It takes no memory.
pub fn say<E: Sink>(err: &mut E, cause: &Cause, words: &[Text])
    ensures says { Tells (E.told err.old) (E.told err.new)
        (Says (Rose (E.faults err.old) (E.faults err.new)) (message_bytes words.now cause.now)) }
    ensures later { E.faults err.old ≤ E.faults err.new }
{
    let _ = write_message(err, cause, words);
}

fn write_message<E: Sink>(err: &mut E, cause: &Cause, words: &[Text]) -> Result<(), SinkFault>
    ensures ok { OnOk result (Tells (E.told err.old) (E.told err.new)
        (λ before after. after ≡ before ++ message_bytes words.now cause.now)) }
    ensures err { OnErr result (Tells (E.told err.old) (E.told err.new)
        (GainsFront (message_bytes words.now cause.now))) }
    ensures cause { HasCause (E.faults err.old) (E.faults err.new) result }
{
    match cause {
        Cause::Done => Ok(()),
        Cause::NotBuilt => write_all(err, b"\nOperation not supported: NotBuilt\n"),
        Cause::Usage(fault) => write_around(err, USAGE, unknown_name(fault), b"'\n"),
        Cause::BadModel(file, place) => write_bad_model(err, file.as_str(), place.as_str()),
        Cause::NotAdmitted(refusal) => {
            write_around(
                err,
                b"\nOperation not supported: ",
                refusal_name(refusal),
                b"\n",
            )
        }
        Cause::FileFault(path) => write_around(err, b"\nError reading ", path.as_str(), b"\n"),
        Cause::Lost(fault) => write_around(err, lost_start(*fault), url_of(words), b"/\"\n"),
        Cause::OutFault => write_all(err, b"\nError writing output\n"),
        Cause::OutOfMemory => write_all(err, b"\nOut of memory\n"),
    }
}

/// The name that is in no model file.
fn unknown_name(fault: &UsageFault) -> &str
    ensures { chars result.now ≡ unknown_name fault.now }
{
    match fault {
        UsageFault::UnknownService(service) => service.as_str(),
        UsageFault::UnknownOperation(command) => command.as_str(),
    }
}

/// Writes that a model file has a fault at a place.
fn write_bad_model<E: Sink>(err: &mut E, file: &str, place: &str) -> Result<(), SinkFault>
    ensures ok { OnOk result (Tells (E.told err.old) (E.told err.new)
        (λ old new. new ≡ old ++ bad_model_around file.now place.now)) }
    ensures err { OnErr result (Tells (E.told err.old) (E.told err.new)
        (GainsFront (bad_model_around file.now place.now))) }
    ensures cause { HasCause (E.faults err.old) (E.faults err.new) result }
{
    write_all(err, b"\nInvalid model ")?;
    write_all(err, file.as_bytes())?;
    write_around(err, b": ", place, b"\n")
}

/// The name of a reason for which an operation can't be called.
fn refusal_name(refusal: &Refusal) -> &'static str
    ensures { result.now ≡ refusal_name refusal.now }
{
    match refusal {
        Refusal::Protocol => "Protocol",
        Refusal::Events => "Events",
        Refusal::Signature => "Signature",
        Refusal::Checksum => "Checksum",
        Refusal::Discovery => "Discovery",
        Refusal::JsonValue => "JsonValue",
        Refusal::BlobOutput => "BlobOutput",
        Refusal::SameArgument(_) => "SameArgument",
    }
}

/// What stands before the URL in the message of a lost exchange.
fn lost_start(fault: LinkFault) -> &'static [u8]
    ensures { result.now ≡ lost_start fault }
{
    match fault {
        LinkFault::Connect => b"\nCould not connect to the endpoint URL: \"",
        LinkFault::Timeout => b"\nRead timeout on endpoint URL: \"",
        LinkFault::Broken => {
            b"\nConnection was closed before we received a valid response from endpoint URL: \""
        }
    }
}

/// The URL of a line's endpoint, which is its fifth word.
fn url_of(words: &[Text]) -> &str
    ensures { chars result.now ≡ url_of words.now }
{
    match words.get(4) {
        Some(url) => url.as_str(),
        None => "",
    }
}

fn write_around<E: Sink>(
    err: &mut E,
    before: &[u8],
    text: &str,
    after: &[u8],
) -> Result<(), SinkFault>
    ensures ok { OnOk result (Tells (E.told err.old) (E.told err.new)
        (λ old new. new ≡ old ++ (before.now ++ (text.now ++ after.now)))) }
    ensures err { OnErr result (Tells (E.told err.old) (E.told err.new)
        (GainsFront (before.now ++ (text.now ++ after.now)))) }
    ensures cause { HasCause (E.faults err.old) (E.faults err.new) result }
{
    write_all(err, before)?;
    write_all(err, text.as_bytes())?;
    write_all(err, after)
}
