ghost use Rattle.std.specs.Prelude.{◌≡◌, ◌≤◌, ◌<◌, length, codes, IsTrue, IfOk, IfErr, Ok, Err};
ghost use Rattle.std.specs.Option.{option_copied};
ghost use Rattle.json_doc.specs.Reading.{Stops};
ghost use Rattle.texts.specs.Calls.{Gives};
ghost use Rattle.json_doc.specs.Grammar.{is_blank};
ghost use Rattle.json_doc.specs.Scan.{begins_number, skipped, behind, past, past_word, key_at};

use crate::Text;
use crate::stop::Stop;
use crate::text_token::read_text;
use std::alloc::Global;

/// Whether a number stands in front.
pub fn begins_number(bytes: &[u8]) -> bool
    ensures { result ≡ begins_number bytes.now }
{
    match bytes.first() {
        Some(b) => *b == b'-' || b.is_ascii_digit(),
        None => false,
    }
}

fn is_blank(b: u8) -> bool
    ensures { result ≡ is_blank b }
{
    b == b' ' || b == b'\t' || b == b'\n' || b == b'\r'
}

/// The bytes without the blanks in front: spaces, tabs, line feeds and carriage returns (RFC 8259,
/// section 2).
pub fn skip_blanks(bytes: &[u8]) -> &[u8]
    ensures value { result.now ≡ skipped bytes.now }
    ensures within { length result.now ≤ length bytes.now }
{
    for (at, b) in bytes.iter().enumerate() {
        if !is_blank(*b) {
            return &bytes[at..];
        }
    }
    &bytes[bytes.len()..]
}

/// The bytes behind this one, where it stands in front.
pub fn strip(bytes: &[u8], c: u8) -> Option<&[u8]>
    ensures { behind c bytes.now ≡ option_copied result }
{
    let (b, rest) = bytes.split_first()?;
    if *b == c { Some(rest) } else { None }
}

/// The bytes behind this one, which is due in front.
pub fn pass(bytes: &[u8], c: u8) -> Result<&[u8], Stop>
    ensures { Gives (λ rest. rest.now) result (past c bytes.now) }
{
    match bytes.split_first() {
        None => Err(Stop::Syntax(0)),
        Some((b, rest)) => {
            if *b == c {
                Ok(rest)
            } else {
                Err(Stop::Syntax(bytes.len()))
            }
        }
    }
}

/// The bytes behind this word, whose letters are due in front.
pub fn pass_word<'a>(bytes: &'a [u8], word: &[u8]) -> Result<&'a [u8], Stop>
    ensures { Gives (λ rest. rest.now) result (past_word word.now bytes.now) }
{
    let mut rest = bytes;
    for c in word {
        rest = pass(rest, *c)?;
    }
    Ok(rest)
}

/// A key, and the bytes behind its colon and blanks.
pub fn read_key(alloc: Global, bytes: &[u8]) -> Result<(Text, &[u8]), Stop>
    ensures read { IfOk result (λ x. key_at bytes.now ≡ Ok (x.0, x.1.now)) }
    ensures fault { IfErr result (Stops (λ stop. key_at bytes.now ≡ Err stop)) }
{
    let rest = pass(bytes, b'"')?;
    let (key, rest) = read_text(alloc, rest)?;
    let rest = pass(skip_blanks(rest), b':')?;
    Ok((key, skip_blanks(rest)))
}
