ghost use Rattle.std.specs.Prelude.{◌≡◌, IfOk};
ghost use Rattle.aws_main.specs.Request.{target_of, content_type_of, headers_of, message_of};

use crate::asking::Asked;
use crate::literals::literal;
use crate::plain_operations::PlainOperation;
use aws_world::Message;
use json_doc::{Bytes, List, OutOfMemory, Text};
use std::alloc::Global;

/// The request of an operation without input, by the protocol `json`.
pub fn message(
    alloc: Global,
    asked: &Asked,
    operation: &PlainOperation,
) -> Result<Message, OutOfMemory>
    ensures { IfOk result (λ message. message ≡ message_of asked.now operation.now) }
{
    Ok(Message {
        method: literal(alloc, "POST")?,
        host: asked.host.copy(alloc)?,
        path: literal(alloc, "/")?,
        query: List::new(alloc),
        headers: headers(alloc, asked, operation)?,
        body: Bytes::from_slice(alloc, b"{}")?,
    })
}

fn headers(
    alloc: Global,
    asked: &Asked,
    operation: &PlainOperation,
) -> Result<List<(Text, Text)>, OutOfMemory>
    ensures { IfOk result (λ headers. headers ≡ headers_of asked.now operation.now) }
{
    let mut headers = List::new(alloc);
    let host = literal(alloc, "Host")?;
    headers.push((host, asked.host.copy(alloc)?))?;
    let target = literal(alloc, "X-Amz-Target")?;
    headers.push((target, target_of(alloc, operation)?))?;
    let content_type = literal(alloc, "Content-Type")?;
    headers.push((content_type, content_type_of(alloc, operation)?))?;
    Ok(headers)
}

/// The prefix of the service's targets, `.` and the operation's name.
fn target_of(alloc: Global, operation: &PlainOperation) -> Result<Text, OutOfMemory>
    ensures { IfOk result (λ target. target ≡ target_of operation.now) }
{
    let mut target = operation.target_prefix.copy(alloc)?;
    target.push_ascii(".")?;
    target.push_str(operation.name.as_str())?;
    Ok(target)
}

fn content_type_of(alloc: Global, operation: &PlainOperation) -> Result<Text, OutOfMemory>
    ensures { IfOk result (λ content_type. content_type ≡ content_type_of operation.now) }
{
    let mut content_type = literal(alloc, "application/x-amz-json-")?;
    content_type.push_str(operation.json_version.as_str())?;
    Ok(content_type)
}
