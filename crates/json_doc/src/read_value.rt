ghost use Rattle.std.specs.Prelude.{◌≡◌, IfOk, IfErr, Ok, Err};
ghost use Rattle.json_doc.specs.Reading.{Stops};
ghost use Rattle.json_doc.specs.Scan.{Value, Array, Object, scalar_at};

use crate::number_token::read_number;
use crate::read_fields::{Gathered, into_pairs, with_field};
use crate::read_marks::{begins_number, pass_word, read_key, skip_blanks, strip};
use crate::stop::Stop;
use crate::text_token::read_text;
use crate::{Doc, List, Pairs};
use std::alloc::Global;

/// How many arrays and objects may stand in one another.
const MOST_DEEP: usize = 100;

/// The value that stands in front, where `depth` brackets are open, and the bytes behind it.
#[cycle(read)]
pub fn read_value(alloc: Global, depth: usize, bytes: &[u8]) -> Result<(Doc, &[u8]), Stop>
    ensures read { IfOk result (λ x. Value depth bytes.now (Ok (x.0, x.1.now))) }
    ensures fault { IfErr result (Stops (λ s. Value depth bytes.now (Err s))) }
{
    if let Some(rest) = strip(bytes, b'[') {
        if depth >= MOST_DEEP {
            return Err(Stop::TooDeep(bytes.len()));
        }
        let (items, rest) = read_array(alloc, depth + 1, skip_blanks(rest))?;
        return Ok((Doc::Items(items), rest));
    }
    if let Some(rest) = strip(bytes, b'{') {
        if depth >= MOST_DEEP {
            return Err(Stop::TooDeep(bytes.len()));
        }
        let (fields, rest) = read_object(alloc, depth + 1, skip_blanks(rest))?;
        return Ok((Doc::Fields(fields), rest));
    }
    if begins_number(bytes) {
        let (number, rest) = read_number(bytes)?;
        return Ok((Doc::Number(number), rest));
    }
    read_scalar(alloc, bytes)
}

/// The elements behind an opening bracket, and the bytes behind the closing one.
#[cycle(read)]
fn read_array(alloc: Global, depth: usize, bytes: &[u8]) -> Result<(List<Doc>, &[u8]), Stop>
    ensures read { IfOk result (λ x. Array depth bytes.now (Ok (x.0, x.1.now))) }
    ensures fault { IfErr result (Stops (λ s. Array depth bytes.now (Err s))) }
{
    let mut items = List::new(alloc);
    if let Some(rest) = strip(bytes, b']') {
        return Ok((items, rest));
    }
    let mut rest = bytes;
    loop {
        let (item, after) = read_value(alloc, depth, rest)?;
        items.push(item)?;
        let after = skip_blanks(after);
        if let Some(end) = strip(after, b']') {
            return Ok((items, end));
        }
        let Some(more) = strip(after, b',') else {
            return Err(Stop::Syntax(after.len()));
        };
        rest = skip_blanks(more);
    }
}

/// The members behind an opening brace, and the bytes behind the closing one.
#[cycle(read)]
fn read_object(alloc: Global, depth: usize, bytes: &[u8]) -> Result<(Pairs<Doc>, &[u8]), Stop>
    ensures read { IfOk result (λ x. Object depth bytes.now (Ok (x.0, x.1.now))) }
    ensures fault { IfErr result (Stops (λ s. Object depth bytes.now (Err s))) }
{
    if let Some(rest) = strip(bytes, b'}') {
        return Ok((Pairs::new(alloc), rest));
    }
    let mut fields = Gathered::Few(Pairs::new(alloc));
    let mut rest = bytes;
    loop {
        let (key, after) = read_key(alloc, rest)?;
        let (value, after) = read_value(alloc, depth, after)?;
        fields = with_field(alloc, fields, key, value)?;
        let after = skip_blanks(after);
        if let Some(end) = strip(after, b'}') {
            return Ok((into_pairs(alloc, fields)?, end));
        }
        let Some(more) = strip(after, b',') else {
            return Err(Stop::Syntax(after.len()));
        };
        rest = skip_blanks(more);
    }
}

/// The text or the word that stands in front, and the bytes behind it.
pub fn read_scalar(alloc: Global, bytes: &[u8]) -> Result<(Doc, &[u8]), Stop>
    ensures read { IfOk result (λ x. scalar_at bytes.now ≡ Ok (x.0, x.1.now)) }
    ensures fault { IfErr result (Stops (λ stop. scalar_at bytes.now ≡ Err stop)) }
{
    if let Some(rest) = strip(bytes, b'"') {
        let (text, rest) = read_text(alloc, rest)?;
        return Ok((Doc::Str(text), rest));
    }
    if let Some(rest) = strip(bytes, b'f') {
        return Ok((Doc::Flag(false), pass_word(rest, b"alse")?));
    }
    if let Some(rest) = strip(bytes, b'n') {
        return Ok((Doc::Null, pass_word(rest, b"ull")?));
    }
    if let Some(rest) = strip(bytes, b't') {
        return Ok((Doc::Flag(true), pass_word(rest, b"rue")?));
    }
    Err(Stop::Syntax(bytes.len()))
}
