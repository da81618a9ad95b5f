ghost use Rattle.std.specs.Prelude.{◌≡◌, ◌≤◌, length, take, drop, IfOk};
ghost use Rattle.jmes_syntax.specs.Words.{begins_name, is_name_byte, name_len};

use json_doc::{OutOfMemory, Text};
use std::alloc::Global;

/// Whether a byte begins a name: a letter or `_`.
pub fn begins_name(byte: u8) -> bool
    ensures { result ≡ begins_name byte }
{
    byte.is_ascii_alphabetic() || byte == b'_'
}

fn is_name_byte(byte: u8) -> bool
    ensures { result ≡ is_name_byte byte }
{
    byte.is_ascii_alphanumeric() || byte == b'_'
}

// How many bytes in front belong to a name.
fn name_len(bytes: &[u8]) -> usize
    ensures value { result ≡ name_len bytes.now }
    ensures within { result ≤ length bytes.now }
{
    for (at, byte) in bytes.iter().enumerate() {
        if !is_name_byte(*byte) {
            return at;
        }
    }
    bytes.len()
}

fn ascii_text(alloc: Global, bytes: &[u8]) -> Result<Text, OutOfMemory>
    ensures { IfOk result (λ text. text ≡ bytes.now) }
{
    let mut text = Text::new(alloc);
    for byte in bytes {
        text.push(*byte as char)?;
    }
    Ok(text)
}

/// The name in front, and what is behind it.
pub fn read_name(alloc: Global, bytes: &[u8]) -> Result<(Text, &[u8]), OutOfMemory>
    ensures { IfOk result (λ x. (x.0 ≡ take (name_len bytes.now) bytes.now) × (x.1.now ≡ drop (name_len bytes.now) bytes.now)) }
{
    let (name, rest) = bytes.split_at(name_len(bytes));
    Ok((ascii_text(alloc, name)?, rest))
}
