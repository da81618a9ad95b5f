//! Percent-escapes (RFC 3986, section 2.1).
ghost use Rattle.std.specs.Prelude.{◌≡◌, ◌++◌, flat_map, IfOk, OnOk};
ghost use Rattle.std.specs.Str.{chars};
ghost use Rattle.percent_encoding.specs.Percent.{percent_encode as encoded_by};
ghost use Rattle.uri_texts.specs.Escapes.{escaped, escaped_byte};

use percent_encoding::{AsciiSet, NON_ALPHANUMERIC, ascii_set, percent_encode};
use std::alloc::Global;
use texts::{OutOfMemory, Text};

/// All but the unreserved characters (RFC 3986, section 2.3).
const RESERVED: AsciiSet = ascii_set!(
    NON_ALPHANUMERIC
        .remove(b'-')
        .remove(b'.')
        .remove(b'_')
        .remove(b'~')
);

/// The same without `/`.
const RESERVED_IN_PATHS: AsciiSet = ascii_set!(
    NON_ALPHANUMERIC
        .remove(b'-')
        .remove(b'.')
        .remove(b'_')
        .remove(b'~')
        .remove(b'/')
);

/// What happens to the slashes of a text.
#[derive(Clone, Copy, Debug, PartialEq, Eq)]
pub enum Slashes {
    Escaped,
    Kept,
}

/// Puts the bytes of a text in UTF-8, each as it is where it is unreserved, and else as an escape.
pub fn push_escaped(
    alloc: Global,
    out: &mut Text,
    text: &str,
    slashes: Slashes,
) -> Result<(), OutOfMemory>
    ensures { OnOk result (out.new ≡ out.old ++ escaped slashes (chars text.now)) }
{
    push_bytes(alloc, out, text.as_bytes(), slashes)
}

/// The text with its escapes.
pub fn escaped(alloc: Global, text: &str, slashes: Slashes) -> Result<Text, OutOfMemory>
    ensures { IfOk result (λ made. made ≡ escaped slashes (chars text.now)) }
{
    let mut made = Text::new(alloc);
    push_escaped(alloc, &mut made, text, slashes)?;
    Ok(made)
}

fn push_bytes(
    alloc: Global,
    out: &mut Text,
    bytes: &[u8],
    slashes: Slashes,
) -> Result<(), OutOfMemory>
    ensures { OnOk result (out.new ≡ out.old ++ flat_map (escaped_byte slashes) bytes.now) }
{
    match slashes {
        Slashes::Escaped => push_by(alloc, out, bytes, RESERVED),
        Slashes::Kept => push_by(alloc, out, bytes, RESERVED_IN_PATHS),
    }
}

fn push_by(alloc: Global, out: &mut Text, bytes: &[u8], set: AsciiSet) -> Result<(), OutOfMemory>
    ensures { OnOk result (out.new ≡ out.old ++ encoded_by set bytes.now) }
{
    let mut escapes = String::new(alloc);
    percent_encode(bytes, set).append_to(&mut escapes)?;
    out.push_str(escapes.as_str())
}
