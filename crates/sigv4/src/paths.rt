ghost use Rattle.std.specs.Prelude.{◌≡◌, ◌++◌, IsTrue, IfOk, OnOk};
ghost use Rattle.texts.specs.Ascii.{is_ascii_text};
ghost use Rattle.std.specs.Str.{chars};
ghost use Rattle.sigv4.specs.Path.{with_segment, segments_of, rooted, final_slash, normal_path, canonical_path};

use std::alloc::Global;
use texts::{OutOfMemory, Text, cut};
use uri_texts::{Slashes, push_escaped};

/// Puts the canonical form of a path that is already escaped ("Create a signed AWS API request",
/// CanonicalUri): without empty and dot segments, each byte escaped once more.
pub fn push_path(alloc: Global, out: &mut Text, path: &Text) -> Result<(), OutOfMemory>
    ensures { OnOk result (out.new ≡ out.old ++ canonical_path path.now) }
{
    let normal = normal_path(alloc, path)?;
    push_escaped(alloc, out, normal.as_str(), Slashes::Kept)
}

/// The path without empty and dot segments.
fn normal_path(alloc: Global, path: &Text) -> Result<Text, OutOfMemory>
    ensures { IfOk result (λ normal. normal ≡ normal_path path.now) }
{
    let segments = segments_of(alloc, path.as_str())?;
    rooted(alloc, segments.as_slice(), final_slash(path))
}

/// A slash where the path ends with one.
fn final_slash(path: &Text) -> &'static str
    ensures text { result.now ≡ final_slash path.now }
    ensures plain { IsTrue (is_ascii_text result.now) }
{
    if path.as_str().ends_with("/") {
        "/"
    } else {
        ""
    }
}

/// Each segment behind a slash, and the end; one slash where there is no segment.
fn rooted(alloc: Global, segments: &[Text], end: &str) -> Result<Text, OutOfMemory>
    requires { IsTrue (is_ascii_text end.now) }
    ensures { IfOk result (λ path. path ≡ rooted segments.now end.now) }
{
    let mut path = Text::new(alloc);
    if segments.is_empty() {
        path.push('/')?;
        return Ok(path);
    }
    for segment in segments {
        path.push('/')?;
        path.push_str(segment.as_str())?;
    }
    path.push_ascii(end)?;
    Ok(path)
}

/// The segments of a path that are left (RFC 3986, section 5.2.4).
fn segments_of(alloc: Global, path: &str) -> Result<Vec<Text>, OutOfMemory>
    ensures { IfOk result (λ segments. segments.items ≡ segments_of (chars path.now)) }
{
    let mut segments = Vec::new(alloc);
    for part in cut(alloc, path, &['/'])?.into_vec() {
        put_segment(&mut segments, part)?;
    }
    Ok(segments)
}

/// Takes in one more part of the path.
fn put_segment(segments: &mut Vec<Text>, part: Text) -> Result<(), OutOfMemory>
    ensures { OnOk result (segments.new.items ≡ with_segment segments.old.items part) }
{
    if part.is_empty() || part.is(".") {
        return Ok(());
    }
    if part.is("..") {
        segments.pop();
        return Ok(());
    }
    segments.push(part)?;
    Ok(())
}
