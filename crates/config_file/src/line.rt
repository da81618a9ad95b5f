//! What a line of a settings file is.
ghost use Rattle.std.specs.Prelude.{◌≡◌, ◌<◌, IfOk, IsTrue, length, position, slice_index};
ghost use Rattle.config_file.specs.Lines.{is_nested, is_remark, head_of, is_sign, key_with, key_at, key_of, form_of, line_of};

use crate::FileKind;
use crate::heads::{in_brackets, profile_named};
use crate::trimmed::{blanks_before, end_trimmed, front_trimmed, trimmed};
use std::alloc::Global;
use texts::{OutOfMemory, Text};

/// Where a line stands.
#[derive(Clone, Copy, Debug, PartialEq, Eq)]
pub enum Place {
    /// Before the first section.
    Outside,
    /// In a section, before its first key.
    Opened,
    /// In a section, behind a key line that starts with this many blanks.
    Behind(usize),
}

/// What a line is.
#[derive(Debug, Drop)]
pub enum Line {
    /// It says nothing: blanks, a comment or a line of a nested block.
    Nothing,
    /// `[name]`: a section begins, of this profile; one of no profile is ignored.
    Head(Option<Text>),
    /// `key = value`, behind this many blanks. The key is in small letters.
    Key(usize, Text, Text),
}

/// What a line is, of which the bytes are given without its end; None where it is faulty.
pub fn line_of(
    alloc: Global,
    kind: FileKind,
    place: Place,
    bytes: &[u8],
) -> Result<Option<Line>, OutOfMemory>
    ensures { IfOk result (λ line. line ≡ line_of kind place bytes.now) }
{
    match std::str::from_utf8(bytes) {
        Ok(line) => form_of(alloc, kind, place, line),
        Err(_) => Ok(None),
    }
}

/// The first of the forms that fits.
fn form_of(
    alloc: Global,
    kind: FileKind,
    place: Place,
    line: &str,
) -> Result<Option<Line>, OutOfMemory>
    ensures { IfOk result (λ form. form ≡ form_of kind place line.now) }
{
    if is_nested(place, line) || is_remark(front_trimmed(line)) {
        return Ok(Some(Line::Nothing));
    }
    match head_of(alloc, kind, line)? {
        Some(head) => Ok(Some(head)),
        None => key_of(alloc, place, line),
    }
}

/// Whether a line starts with more blanks than the last key line of its section.
fn is_nested(place: Place, line: &str) -> bool
    ensures { result ≡ is_nested place line.now }
{
    match place {
        Place::Outside => false,
        Place::Opened => false,
        Place::Behind(blanks) => blanks < blanks_before(line),
    }
}

/// Whether a text is empty or a comment.
fn is_remark(text: &str) -> bool
    ensures { result ≡ is_remark text.now }
{
    match text.as_bytes() {
        [] => true,
        [b, ..] => *b == b'#' || *b == b';',
    }
}

/// `[name]`, and blanks behind it.
fn head_of(alloc: Global, kind: FileKind, line: &str) -> Result<Option<Line>, OutOfMemory>
    ensures { IfOk result (λ head. head ≡ head_of kind line.now) }
{
    let Some(name) = in_brackets(end_trimmed(line)) else {
        return Ok(None);
    };
    match profile_named(kind, name) {
        Some(profile) => Ok(Some(Line::Head(Some(Text::from_str(alloc, profile)?)))),
        None => Ok(Some(Line::Head(None))),
    }
}

/// `key = value`, in a section; the first sign counts.
fn key_of(alloc: Global, place: Place, line: &str) -> Result<Option<Line>, OutOfMemory>
    ensures { IfOk result (λ key. key ≡ key_of place line.now) }
{
    if let Place::Outside = place {
        return Ok(None);
    }
    match sign_at(line) {
        Some(at) => key_at(alloc, line, at),
        None => Ok(None),
    }
}

/// Where the first sign is.
fn sign_at(line: &str) -> Option<usize>
    ensures { result ≡ position is_sign line.now }
{
    line.bytes().position(|b| is_sign(b))
}

fn is_sign(b: u8) -> bool
    ensures { result ≡ is_sign b }
{
    b == b'=' || b == b':'
}

/// The key before the sign at this position, and the value behind it.
fn key_at(alloc: Global, line: &str, at: usize) -> Result<Option<Line>, OutOfMemory>
    requires within { at < length line.now }
    requires sign { IsTrue (is_sign (slice_index line.now at)) }
    ensures { IfOk result (λ key. key ≡ key_at line.now at) }
{
    let key = trimmed(&line[..at]);
    if key.is_empty() {
        return Ok(None);
    }
    let value = Text::from_str(alloc, trimmed(&line[at + 1..]))?;
    let key = Text::from_string(key.to_ascii_lowercase(alloc)?);
    Ok(Some(Line::Key(blanks_before(line), key, value)))
}
