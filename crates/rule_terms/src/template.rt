//! Templates: texts with names between braces.
ghost use Rattle.std.specs.Prelude.{◌≡◌, ◌++◌, ◌∷◌, [], IfOk, OnOk, option_map};
ghost use Rattle.std.specs.Str.{chars, NonePass};
ghost use Rattle.rule_terms.specs.Templates.{pieces_of, name_in, path_in, left_open, is_brace, held, IsStand, GoesOn};

use std::alloc::Global;
use texts::{List, OutOfMemory, Text, around_first};

/// A part of a template.
#[derive(Debug, Drop)]
pub enum Piece {
    /// This character.
    Char(char),
    /// The text that the words between two braces stand for.
    Named(Text),
}

/// What is held back where a piece isn't known yet.
#[derive(Debug, Drop)]
pub enum Stand {
    /// Nothing.
    Plain,
    /// An opening brace and these words.
    Opened(Text),
    /// A closing brace.
    Closed,
}

/// The pieces of a template. A doubled brace stands for one, and a brace alone is text.
pub fn pieces_of(alloc: Global, text: &str) -> Result<List<Piece>, OutOfMemory>
    ensures { IfOk result (λ pieces. pieces ≡ pieces_of (chars text.now)) }
{
    let mut pieces = List::new(alloc);
    let mut stand = Stand::Plain;
    for c in text.chars() {
        stand = behind(alloc, &mut pieces, stand, c)?;
    }
    push_held(&mut pieces, stand)?;
    Ok(pieces)
}

/// Puts the pieces that one more character settles, and gives what is held back behind it.
fn behind(
    alloc: Global,
    pieces: &mut List<Piece>,
    stand: Stand,
    c: char,
) -> Result<Stand, OutOfMemory>
    requires { IsStand stand }
    ensures { IfOk result (λ next. GoesOn pieces.old (held stand ++ c ∷ []) pieces.new next) }
{
    match stand {
        Stand::Plain => behind_plain(alloc, pieces, c),
        Stand::Opened(words) => behind_words(alloc, pieces, words, c),
        Stand::Closed => behind_closed(alloc, pieces, c),
    }
}

fn behind_plain(alloc: Global, pieces: &mut List<Piece>, c: char) -> Result<Stand, OutOfMemory>
    ensures { IfOk result (λ next. GoesOn pieces.old (c ∷ []) pieces.new next) }
{
    if c == '{' {
        return Ok(Stand::Opened(Text::new(alloc)));
    }
    if c == '}' {
        return Ok(Stand::Closed);
    }
    pieces.push(Piece::Char(c))?;
    Ok(Stand::Plain)
}

fn behind_words(
    alloc: Global,
    pieces: &mut List<Piece>,
    words: Text,
    c: char,
) -> Result<Stand, OutOfMemory>
    requires { NonePass is_brace words }
    ensures { IfOk result (λ next. GoesOn pieces.old (123 ∷ words ++ c ∷ []) pieces.new next) }
{
    if words.is_empty() {
        return behind_brace(alloc, pieces, c);
    }
    if c == '{' {
        push_open(pieces, &words)?;
        return Ok(Stand::Opened(Text::new(alloc)));
    }
    if c == '}' {
        pieces.push(Piece::Named(words))?;
        return Ok(Stand::Plain);
    }
    let mut words = words;
    words.push(c)?;
    Ok(Stand::Opened(words))
}

/// Right behind an opening brace.
fn behind_brace(alloc: Global, pieces: &mut List<Piece>, c: char) -> Result<Stand, OutOfMemory>
    ensures { IfOk result (λ next. GoesOn pieces.old (123 ∷ c ∷ []) pieces.new next) }
{
    if c == '{' {
        pieces.push(Piece::Char('{'))?;
        return Ok(Stand::Plain);
    }
    if c == '}' {
        pieces.push(Piece::Char('{'))?;
        return Ok(Stand::Closed);
    }
    let mut words = Text::new(alloc);
    words.push(c)?;
    Ok(Stand::Opened(words))
}

/// Right behind a closing brace that closes nothing.
fn behind_closed(alloc: Global, pieces: &mut List<Piece>, c: char) -> Result<Stand, OutOfMemory>
    ensures { IfOk result (λ next. GoesOn pieces.old (125 ∷ c ∷ []) pieces.new next) }
{
    pieces.push(Piece::Char('}'))?;
    if c == '}' {
        return Ok(Stand::Plain);
    }
    behind_plain(alloc, pieces, c)
}

/// At the end, what is held back is text.
fn push_held(pieces: &mut List<Piece>, stand: Stand) -> Result<(), OutOfMemory>
    requires { IsStand stand }
    ensures { OnOk result (pieces.new ≡ pieces.old ++ pieces_of (held stand)) }
{
    match stand {
        Stand::Plain => Ok(()),
        Stand::Opened(words) => {
            push_open(pieces, &words)?;
            Ok(())
        }
        Stand::Closed => pieces.push(Piece::Char('}')),
    }
}

/// An opening brace that isn't closed, and the words behind it, are text.
fn push_open(pieces: &mut List<Piece>, words: &Text) -> Result<(), OutOfMemory>
    ensures { OnOk result (pieces.new ≡ pieces.old ++ left_open words.now) }
{
    pieces.push(Piece::Char('{'))?;
    for c in words.as_str().chars() {
        pieces.push(Piece::Char(c))?;
    }
    Ok(())
}

/// The name in the words between two braces, and the path behind it, where there is one.
pub fn name_and_path(words: &str) -> (&str, Option<&str>)
    ensures name { chars result.0.now ≡ name_in (chars words.now) }
    ensures path { option_map (λ path. chars path.now) result.1 ≡ path_in (chars words.now) }
{
    match around_first(words, '#') {
        Some((name, path)) => (name, Some(path)),
        None => (words, None),
    }
}
