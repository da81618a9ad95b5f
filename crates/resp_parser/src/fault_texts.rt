//! What is told of replies that give no document.
ghost use Rattle.std.specs.Prelude.{◌≡◌, ◌++◌, IfOk, IsTrue, OnOk};
ghost use Rattle.std.specs.Fmt.{decimal};
ghost use Rattle.texts.specs.Ascii.{is_ascii_text};
ghost use Rattle.resp_parser.specs.FaultTexts.{fault_text, retries_text, service_text};

use crate::{ReplyFault, ServiceError};
use json_doc::{OutOfMemory, Text};
use std::alloc::Global;

/// What is told of a reply to the operation of this name.
pub fn fault_text(alloc: Global, operation: &Text, fault: &ReplyFault) -> Result<Text, OutOfMemory>
    ensures { IfOk result (λ text. text ≡ fault_text operation.now fault.now) }
{
    match fault {
        ReplyFault::Service(error) => service_text(alloc, operation, error),
        ReplyFault::BadBody(_) => literal(alloc, "Unable to parse response: BadReply"),
        ReplyFault::Compressed => literal(alloc, "Unable to parse response: Compressed"),
        ReplyFault::OutOfMemory => literal(alloc, "Out of memory"),
    }
}

/// What is told of a service's error, in botocore's words.
pub fn service_text(
    alloc: Global,
    operation: &Text,
    error: &ServiceError,
) -> Result<Text, OutOfMemory>
    ensures { IfOk result (λ text. text ≡ service_text operation.now error.now) }
{
    let mut text = Text::new(alloc);
    text.push_ascii("An error occurred (")?;
    text.push_str(error.code.as_str())?;
    text.push_ascii(") when calling the ")?;
    text.push_str(operation.as_str())?;
    text.push_ascii(" operation")?;
    push_retries(alloc, &mut text, error.retries)?;
    text.push_ascii(": ")?;
    text.push_str(error.message.as_str())?;
    Ok(text)
}

/// Puts behind a text that all retries were made, where they were.
fn push_retries(alloc: Global, text: &mut Text, retries: Option<u32>) -> Result<(), OutOfMemory>
    ensures { OnOk result (text.new ≡ text.old ++ retries_text retries) }
{
    let Some(number) = retries else {
        return Ok(());
    };
    text.push_ascii(" (reached max retries: ")?;
    push_number(alloc, text, number)?;
    text.push_ascii(")")?;
    Ok(())
}

fn push_number(alloc: Global, text: &mut Text, number: u32) -> Result<(), OutOfMemory>
    ensures { OnOk result (text.new ≡ text.old ++ decimal number) }
{
    text.push_str(format!(in alloc; "{number}")?.as_str())?;
    Ok(())
}

/// A text in ASCII.
fn literal(alloc: Global, text: &str) -> Result<Text, OutOfMemory>
    requires { IsTrue (is_ascii_text text.now) }
    ensures { IfOk result (λ made. made ≡ text.now) }
{
    let mut made = Text::new(alloc);
    made.push_ascii(text)?;
    Ok(made)
}
