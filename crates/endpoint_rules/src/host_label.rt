//! Labels of hosts.
ghost use Rattle.std.specs.Prelude.{◌≡◌, IfOk};
ghost use Rattle.std.specs.List.{list_all};
ghost use Rattle.std.specs.Str.{chars};
ghost use Rattle.endpoint_rules.specs.HostLabels.{is_label, is_label_character, has_label_form, are_labels, is_host_label};

use std::alloc::Global;
use texts::{OutOfMemory, Text, cut};

/// The most characters of a label (RFC 1123, section 2.1).
const MOST_CHARACTERS: usize = 63;

/// Whether a text is a label or, with dots, labels between dots.
pub fn is_host_label(alloc: Global, text: &str, dots: bool) -> Result<bool, OutOfMemory>
    ensures { IfOk result (λ valid. valid ≡ is_host_label (chars text.now) dots) }
{
    if !dots {
        return Ok(is_label(text));
    }
    let parts = cut(alloc, text, ['.'].as_slice())?;
    Ok(are_labels(parts.as_slice()))
}

fn are_labels(parts: &[Text]) -> bool
    ensures { result ≡ are_labels parts.now }
{
    for part in parts {
        if !is_label(part.as_str()) {
            return false;
        }
    }
    true
}

/// 1 to 63 letters, digits and hyphens, without a hyphen at either end.
pub fn is_label(text: &str) -> bool
    ensures { result ≡ is_label (chars text.now) }
{
    has_label_bytes(text) && has_label_form(text.as_bytes())
}

fn has_label_bytes(text: &str) -> bool
    ensures { result ≡ list_all is_label_character text.now }
{
    text.bytes().all(|b| is_label_byte(b))
}

fn is_label_byte(b: u8) -> bool
    ensures { result ≡ is_label_character b }
{
    b.is_ascii_alphanumeric() || b == b'-'
}

/// Whether there are 1 to 63, without a hyphen at either end.
fn has_label_form(bytes: &[u8]) -> bool
    ensures { result ≡ has_label_form bytes.now }
{
    !bytes.is_empty()
        && bytes.len() <= MOST_CHARACTERS
        && bytes[0] != b'-'
        && bytes[bytes.len() - 1] != b'-'
}
