ghost use Rattle.std.specs.Prelude.{◌≡◌, ◌++◌, ◌∷◌, [], codes, flat_map, length, IfOk, IsTrue, OnOk};
ghost use Rattle.texts.specs.Ascii.{is_ascii_text};
ghost use Rattle.std.specs.Fmt.{decimal};
ghost use Rattle.http_exchange.specs.Wire.{wire_of, wire_with, request_line, parameters, line, header, has_length, has_body_method, length_line};

use aws_world::Message;
use std::alloc::Global;
use texts::{Bytes, OutOfMemory, Text};

/// The bytes of a request (RFC 9112): the request line, the message's headers, `User-Agent`,
/// `Content-Length` where there may be a body, `Connection: close`, an empty line, the body.
pub fn wire(alloc: Global, message: &Message) -> Result<Bytes, OutOfMemory>
    ensures { IfOk result (λ bytes. bytes ≡ wire_of message.now) }
{
    wire_with(alloc, message, &[])
}

/// The bytes of a message with more headers behind its own, without a copy of the message.
pub fn wire_with(
    alloc: Global,
    message: &Message,
    more: &[(Text, Text)],
) -> Result<Bytes, OutOfMemory>
    ensures { IfOk result (λ bytes. bytes ≡ wire_with message.now more.now) }
{
    let mut head = Text::new(alloc);
    push_request_line(&mut head, message)?;
    push_both(&mut head, message.headers.as_slice(), more)?;
    push_line(&mut head, "User-Agent: aws-json-cli/1")?;
    push_length(alloc, &mut head, message)?;
    push_line(&mut head, "Connection: close")?;
    push_line(&mut head, "")?;
    let mut bytes = head.into_bytes();
    bytes.extend(message.body.as_slice())?;
    Ok(bytes)
}

fn push_request_line(head: &mut Text, message: &Message) -> Result<(), OutOfMemory>
    ensures { OnOk result (head.new ≡ head.old ++ line (request_line message.now)) }
{
    head.push_str(message.method.as_str())?;
    head.push(' ')?;
    head.push_str(message.path.as_str())?;
    push_parameters(head, message.query.as_slice())?;
    push_line(head, " HTTP/1.1")
}

fn push_parameters(head: &mut Text, query: &[(Text, Text)]) -> Result<(), OutOfMemory>
    ensures { OnOk result (head.new ≡ head.old ++ parameters 63 query.now) }
{
    let mut mark = '?';
    for (name, value) in query {
        head.push(mark)?;
        head.push_str(name.as_str())?;
        head.push('=')?;
        head.push_str(value.as_str())?;
        mark = '&';
    }
    Ok(())
}

/// Puts headers, and more behind them.
fn push_both(
    head: &mut Text,
    headers: &[(Text, Text)],
    more: &[(Text, Text)],
) -> Result<(), OutOfMemory>
    ensures { OnOk result (head.new ≡ head.old ++ flat_map (λ h. line (header h)) (headers.now ++ more.now)) }
{
    push_headers(head, headers)?;
    push_headers(head, more)
}

fn push_headers(head: &mut Text, headers: &[(Text, Text)]) -> Result<(), OutOfMemory>
    ensures { OnOk result (head.new ≡ head.old ++ flat_map (λ h. line (header h)) headers.now) }
{
    for (name, value) in headers {
        head.push_str(name.as_str())?;
        head.push_ascii(": ")?;
        head.push_str(value.as_str())?;
        push_line(head, "")?;
    }
    Ok(())
}

fn push_length(alloc: Global, head: &mut Text, message: &Message) -> Result<(), OutOfMemory>
    ensures { OnOk result (head.new ≡ head.old ++ length_line message.now) }
{
    if !tells_length(message) {
        return Ok(());
    }
    head.push_ascii("Content-Length: ")?;
    push_number(alloc, head, message.body.len())?;
    push_line(head, "")
}

/// Whether the request tells the length of its body.
fn tells_length(message: &Message) -> bool
    ensures { result ≡ has_length message.now }
{
    if message.body.len() > 0 {
        return true;
    }
    gives_body_meaning(&message.method)
}

/// Whether a request of this method has a body by its meaning, even an empty one.
fn gives_body_meaning(method: &Text) -> bool
    ensures { result ≡ has_body_method method.now }
{
    method.is("POST") || method.is("PUT") || method.is("PATCH")
}

fn push_number(alloc: Global, head: &mut Text, n: usize) -> Result<(), OutOfMemory>
    ensures { OnOk result (head.new ≡ head.old ++ decimal n) }
{
    let digits = format!(in alloc; "{n}")?;
    head.push_str(digits.as_str())?;
    Ok(())
}

/// Puts a text in ASCII and a line end.
fn push_line(head: &mut Text, text: &str) -> Result<(), OutOfMemory>
    requires { IsTrue (is_ascii_text text.now) }
    ensures { OnOk result (head.new ≡ head.old ++ line text.now) }
{
    head.push_ascii(text)?;
    head.push_ascii("\r\n")
}
