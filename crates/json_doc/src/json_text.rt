ghost use Rattle.std.specs.Prelude.{◌≤◌, ◌<◌, ◌↔◌, List, [], ◌∷◌, length, is_some, IsTrue, MatchBool, IfOk, IfErr};
ghost use Rattle.json_doc.specs.declared.brackets.Bracket.{Bracket as Opened};
ghost use Rattle.json_doc.specs.JsonTexts.{IsJsonText};
ghost use Rattle.json_doc.specs.Reading.{Stops};
ghost use Rattle.json_doc.specs.StillDue.{Closes, Opens, Begins, GoesOn};

use crate::OutOfMemory;
use crate::brackets::{Bracket, Brackets};
use crate::number_token::skip_number;
use crate::read_marks::{begins_number, pass, read_key, skip_blanks, strip};
use crate::read_value::read_scalar;
use crate::stop::Stop;
use std::alloc::Global;

/// Whether the bytes are a JSON text (RFC 8259), however deep and whatever the size of its numbers.
pub fn is_json_text(alloc: Global, bytes: &[u8]) -> Result<bool, OutOfMemory>
    ensures { IfOk result (λ is. MatchBool is (IsJsonText bytes.now) (IsJsonText bytes.now → ⊥)) }
{
    match pass_value(alloc, bytes) {
        Ok(rest) => Ok(skip_blanks(rest).is_empty()),
        Err(Stop::Syntax(_)) => Ok(false),
        Err(Stop::TooDeep(_)) => Ok(false),
        Err(Stop::NumberTooWide(_)) => Ok(false),
        Err(Stop::OutOfMemory) => Err(OutOfMemory),
    }
}

// What is behind the value in front, which may stand behind blanks.
fn pass_value(alloc: Global, bytes: &[u8]) -> Result<&[u8], Stop>
    ensures passed { IfOk result (λ rest. Opens [] bytes.now ↔ Closes [] rest.now) }
    ensures fault { IfErr result (Stops (λ _. Opens [] bytes.now → ⊥)) }
{
    let mut brackets = Brackets::new(alloc);
    let mut rest = descend(alloc, &mut brackets, bytes)?;
    loop {
        let Some(bracket) = brackets.pop() else {
            return Ok(rest);
        };
        let (stays, more) = go_on(alloc, bracket, rest)?;
        rest = match stays {
            None => more,
            Some(bracket) => {
                brackets.push(bracket)?;
                descend(alloc, &mut brackets, more)?
            }
        };
    }
}

// What is behind the first value here that has none inside it; the brackets around it are open then.
fn descend<'a>(alloc: Global, brackets: &mut Brackets, bytes: &'a [u8]) -> Result<&'a [u8], Stop>
    ensures passed { IfOk result (λ rest. Opens brackets.old bytes.now ↔ Closes brackets.new rest.now) }
    ensures fault { IfErr result (Stops (λ _. Opens brackets.old bytes.now → ⊥)) }
    ensures within { IfOk result (λ rest. length rest.now ≤ length bytes.now) }
{
    let mut rest = bytes;
    loop {
        let (opened, more) = begin(alloc, rest)?;
        let Some(bracket) = opened else {
            return Ok(more);
        };
        brackets.push(bracket)?;
        rest = more;
    }
}

// What is behind a value in front; or its bracket, and what is behind that, where it has values inside.
fn begin(alloc: Global, bytes: &[u8]) -> Result<(Option<Bracket>, &[u8]), Stop>
    ensures begun { IfOk result (λ x. Begins bytes.now x.0 x.1.now) }
    ensures fault { IfErr result (Stops (λ _. (outer : List Opened) → Opens outer bytes.now → ⊥)) }
    ensures within { IfOk result (λ x. length x.1.now ≤ length bytes.now) }
    ensures deeper { IfOk result (λ x. IsTrue (is_some x.0) → length x.1.now < length bytes.now) }
{
    let front = skip_blanks(bytes);
    if let Some(inside) = strip(front, b'[') {
        if let Some(rest) = strip(skip_blanks(inside), b']') {
            return Ok((None, rest));
        }
        return Ok((Some(Bracket::Array), inside));
    }
    if let Some(inside) = strip(front, b'{') {
        let inside = skip_blanks(inside);
        if let Some(rest) = strip(inside, b'}') {
            return Ok((None, rest));
        }
        let (_, rest) = read_key(alloc, inside)?;
        return Ok((Some(Bracket::Object), rest));
    }
    if begins_number(front) {
        return Ok((None, skip_number(front)?));
    }
    let (_, rest) = read_scalar(alloc, front)?;
    Ok((None, rest))
}

// Behind a value in this bracket: what is behind the bracket where it closes; or else the bracket, and
// what is behind the comma and the key that are due then.
fn go_on(alloc: Global, bracket: Bracket, bytes: &[u8]) -> Result<(Option<Bracket>, &[u8]), Stop>
    ensures gone { IfOk result (λ x. GoesOn bracket bytes.now x.0 x.1.now) }
    ensures fault { IfErr result (Stops (λ _. (outer : List Opened) → Closes (bracket ∷ outer) bytes.now → ⊥)) }
    ensures shorter { IfOk result (λ x. length x.1.now < length bytes.now) }
{
    let front = skip_blanks(bytes);
    match bracket {
        Bracket::Array => {
            if let Some(rest) = strip(front, b']') {
                return Ok((None, rest));
            }
            Ok((Some(bracket), pass(front, b',')?))
        }
        Bracket::Object => {
            if let Some(rest) = strip(front, b'}') {
                return Ok((None, rest));
            }
            let (_, rest) = read_key(alloc, skip_blanks(pass(front, b',')?))?;
            Ok((Some(bracket), rest))
        }
    }
}
