ghost use Rattle.std.specs.Prelude.{◌≡◌, IfOk, IfErr};
ghost use Rattle.shorthand.specs.Reading.{
  Stops,
  begun,
  in_key,
  first,
  first_item,
  next,
  next_in_pair,
  start,
  deeper,
  plain,
  bare,
  in_bare,
  behind_backslash,
  in_run,
  next_pair,
  in_quotes,
  escaped,
  behind,
  behind_item,
  behind_in_pair,
  behind_comma,
  closed,
  step,
};

use crate::Short;
use crate::begun::{Begun, Group, with_pair, with_value};
use crate::fault::Stop;
use crate::fields::FieldTable;
use crate::marks::{ends_bare, is_key_char};
use crate::places::{Place, Reader, Run};
use crate::stack::Stack;
use std::alloc::Global;
use texts::{List, Text};

/// How many brackets and braces may stand in one another.
const MOST_DEEP: usize = 100;

/// Reads one character more.
pub fn step(alloc: Global, reader: Reader, c: char) -> Result<Reader, Stop>
    ensures read { IfOk result (λ r. step reader c ≡ Ok r) }
    ensures fault { IfErr result (Stops (λ s. step reader c ≡ Err s)) }
{
    let Reader { outer, place } = reader;
    match place {
        Place::Key(fields, key, is_spaced) => in_key(alloc, outer, fields, key, is_spaced, c),
        Place::First(group) => first(alloc, outer, group, c),
        Place::Next(group) => next(alloc, outer, group, c),
        Place::Bare(group, word, run) => in_bare(alloc, outer, group, word, run, c),
        Place::Quoted(group, quote, word, is_escaping) => {
            in_quotes(outer, group, quote, word, is_escaping, c)
        }
        Place::Behind(group) => behind(alloc, outer, group, c),
    }
}

// A character of a key, or the `=` behind it.
fn in_key(
    alloc: Global,
    outer: Stack,
    fields: FieldTable,
    key: Text,
    is_spaced: bool,
    c: char,
) -> Result<Reader, Stop>
    ensures read { IfOk result (λ r. in_key outer fields key is_spaced c ≡ Ok r) }
    ensures fault { IfErr result (Stops (λ s. in_key outer fields key is_spaced c ≡ Err s)) }
{
    if is_key_char(c) {
        let mut key = key;
        key.push(c)?;
        let place = Place::Key(fields, key, is_spaced);
        return Ok(Reader { outer, place });
    }
    if key.is_empty() {
        if is_spaced && c == ' ' {
            let place = Place::Key(fields, key, is_spaced);
            return Ok(Reader { outer, place });
        }
        return Err(Stop::Refused);
    }
    if c == '=' {
        begin(alloc, outer, fields, key)
    } else {
        Err(Stop::Refused)
    }
}

// A pair, behind its key and `=`.
fn begin(alloc: Global, outer: Stack, fields: FieldTable, key: Text) -> Result<Reader, Stop>
    ensures read { IfOk result (λ r. begun outer fields key ≡ Ok r) }
    ensures fault { IfErr result (Stops (λ s. begun outer fields key ≡ Err s)) }
{
    if fields.has(&key) {
        return Err(Stop::RepeatedKey(key.as_str().len()));
    }
    let values = List::new(alloc);
    let place = Place::First(Group::Pair(Begun {
        fields,
        key,
        values,
    }));
    Ok(Reader { outer, place })
}

// Behind `=` or `[`.
fn first(alloc: Global, outer: Stack, group: Group, c: char) -> Result<Reader, Stop>
    ensures read { IfOk result (λ r. first outer group c ≡ Ok r) }
    ensures fault { IfErr result (Stops (λ s. first outer group c ≡ Err s)) }
{
    match group {
        Group::Items(items) => first_item(alloc, outer, items, c),
        Group::Pair(begun) => {
            if ends_bare(outer.len(), c) {
                behind(alloc, outer, Group::Pair(begun), c)
            } else {
                start(alloc, outer, Group::Pair(begun), c)
            }
        }
    }
}

// Behind `[`.
fn first_item(alloc: Global, outer: Stack, items: List<Short>, c: char) -> Result<Reader, Stop>
    ensures read { IfOk result (λ r. first_item outer items c ≡ Ok r) }
    ensures fault { IfErr result (Stops (λ s. first_item outer items c ≡ Err s)) }
{
    if c == ' ' {
        let place = Place::First(Group::Items(items));
        return Ok(Reader { outer, place });
    }
    if c == ']' {
        return close(outer, Short::Items(items));
    }
    start(alloc, outer, Group::Items(items), c)
}

// Behind a comma.
fn next(alloc: Global, outer: Stack, group: Group, c: char) -> Result<Reader, Stop>
    ensures read { IfOk result (λ r. next outer group c ≡ Ok r) }
    ensures fault { IfErr result (Stops (λ s. next outer group c ≡ Err s)) }
{
    if c == ' ' {
        let place = Place::Next(group);
        return Ok(Reader { outer, place });
    }
    match group {
        Group::Items(items) => start(alloc, outer, Group::Items(items), c),
        Group::Pair(begun) => next_in_pair(alloc, outer, begun, c),
    }
}

// What begins with a character of a key may be a pair.
fn next_in_pair(alloc: Global, outer: Stack, begun: Begun, c: char) -> Result<Reader, Stop>
    ensures read { IfOk result (λ r. next_in_pair outer begun c ≡ Ok r) }
    ensures fault { IfErr result (Stops (λ s. next_in_pair outer begun c ≡ Err s)) }
{
    if is_key_char(c) {
        let mut word = Text::new(alloc);
        word.push(c)?;
        let place = Place::Bare(Group::Pair(begun), word, Run::Key);
        return Ok(Reader { outer, place });
    }
    start(alloc, outer, Group::Pair(begun), c)
}

// The first character of a value.
fn start(alloc: Global, outer: Stack, group: Group, c: char) -> Result<Reader, Stop>
    ensures read { IfOk result (λ r. start outer group c ≡ Ok r) }
    ensures fault { IfErr result (Stops (λ s. start outer group c ≡ Err s)) }
{
    if c == '"' || c == '\'' {
        let place = Place::Quoted(group, c, Text::new(alloc), false);
        return Ok(Reader { outer, place });
    }
    if c == '[' {
        return deeper(outer, group, Place::First(Group::Items(List::new(alloc))));
    }
    if c == '{' {
        let fields = FieldTable::new(alloc);
        return deeper(outer, group, Place::Key(fields, Text::new(alloc), true));
    }
    if ends_bare(outer.len(), c) {
        return Err(Stop::Refused);
    }
    plain(outer, group, Text::new(alloc), c)
}

// Inside a bracket that opens here.
fn deeper(outer: Stack, group: Group, place: Place) -> Result<Reader, Stop>
    ensures read { IfOk result (λ r. deeper outer group place ≡ Ok r) }
    ensures fault { IfErr result (Stops (λ s. deeper outer group place ≡ Err s)) }
{
    if outer.len() >= MOST_DEEP {
        return Err(Stop::Refused);
    }
    let outer = outer.with(group)?;
    Ok(Reader { outer, place })
}

// A character of a value without quotes.
fn plain(outer: Stack, group: Group, word: Text, c: char) -> Result<Reader, Stop>
    ensures read { IfOk result (λ r. plain outer group word c ≡ Ok r) }
    ensures fault { IfErr result (Stops (λ s. plain outer group word c ≡ Err s)) }
{
    if c == '\\' {
        let place = Place::Bare(group, word, Run::Backslash);
        return Ok(Reader { outer, place });
    }
    let mut word = word;
    word.push(c)?;
    let place = Place::Bare(group, word, Run::Plain);
    Ok(Reader { outer, place })
}

// A character of a value without quotes, or what ends it.
fn bare(alloc: Global, outer: Stack, group: Group, word: Text, c: char) -> Result<Reader, Stop>
    ensures read { IfOk result (λ r. bare outer group word c ≡ Ok r) }
    ensures fault { IfErr result (Stops (λ s. bare outer group word c ≡ Err s)) }
{
    if ends_bare(outer.len(), c) {
        let group = with_value(group, Short::Word(word))?;
        return behind(alloc, outer, group, c);
    }
    plain(outer, group, word, c)
}

// The same, by what the value is so far.
fn in_bare(
    alloc: Global,
    outer: Stack,
    group: Group,
    word: Text,
    run: Run,
    c: char,
) -> Result<Reader, Stop>
    ensures read { IfOk result (λ r. in_bare outer group word run c ≡ Ok r) }
    ensures fault { IfErr result (Stops (λ s. in_bare outer group word run c ≡ Err s)) }
{
    match run {
        Run::Plain => bare(alloc, outer, group, word, c),
        Run::Backslash => behind_backslash(alloc, outer, group, word, c),
        Run::Key => in_run(alloc, outer, group, word, c),
    }
}

// A backslash gives a comma its plain meaning, and stands for itself before all else.
fn behind_backslash(
    alloc: Global,
    outer: Stack,
    group: Group,
    word: Text,
    c: char,
) -> Result<Reader, Stop>
    ensures read { IfOk result (λ r. behind_backslash outer group word c ≡ Ok r) }
    ensures fault { IfErr result (Stops (λ s. behind_backslash outer group word c ≡ Err s)) }
{
    let mut word = word;
    if c == ',' {
        word.push(c)?;
        let place = Place::Bare(group, word, Run::Plain);
        return Ok(Reader { outer, place });
    }
    word.push('\\')?;
    bare(alloc, outer, group, word, c)
}

// A value that may still be a key: `=` makes it one.
fn in_run(alloc: Global, outer: Stack, group: Group, word: Text, c: char) -> Result<Reader, Stop>
    ensures read { IfOk result (λ r. in_run outer group word c ≡ Ok r) }
    ensures fault { IfErr result (Stops (λ s. in_run outer group word c ≡ Err s)) }
{
    if is_key_char(c) {
        let mut word = word;
        word.push(c)?;
        let place = Place::Bare(group, word, Run::Key);
        return Ok(Reader { outer, place });
    }
    if c == '=' {
        return next_pair(alloc, outer, group, word);
    }
    bare(alloc, outer, group, word, c)
}

// The pair of this key, behind the one that was begun.
fn next_pair(alloc: Global, outer: Stack, group: Group, key: Text) -> Result<Reader, Stop>
    ensures read { IfOk result (λ r. next_pair outer group key ≡ Ok r) }
    ensures fault { IfErr result (Stops (λ s. next_pair outer group key ≡ Err s)) }
{
    match group {
        Group::Items(_) => Err(Stop::Refused),
        Group::Pair(begun) => begin(alloc, outer, with_pair(alloc, begun)?, key),
    }
}

// A character of a value in quotes, or the quote that ends it.
fn in_quotes(
    outer: Stack,
    group: Group,
    quote: char,
    word: Text,
    is_escaping: bool,
    c: char,
) -> Result<Reader, Stop>
    ensures read { IfOk result (λ r. in_quotes outer group quote word is_escaping c ≡ Ok r) }
    ensures fault { IfErr result (Stops (λ s. in_quotes outer group quote word is_escaping c ≡ Err s)) }
{
    if is_escaping {
        return escaped(outer, group, quote, word, c);
    }
    if c == quote {
        let place = Place::Behind(with_value(group, Short::Word(word))?);
        return Ok(Reader { outer, place });
    }
    if c == '\\' {
        let place = Place::Quoted(group, quote, word, true);
        return Ok(Reader { outer, place });
    }
    let mut word = word;
    word.push(c)?;
    let place = Place::Quoted(group, quote, word, false);
    Ok(Reader { outer, place })
}

// A backslash gives the quote and a backslash their plain meaning, and stands for itself before all
// else.
fn escaped(outer: Stack, group: Group, quote: char, word: Text, c: char) -> Result<Reader, Stop>
    ensures read { IfOk result (λ r. escaped outer group quote word c ≡ Ok r) }
    ensures fault { IfErr result (Stops (λ s. escaped outer group quote word c ≡ Err s)) }
{
    let mut word = word;
    if c != quote && c != '\\' {
        word.push('\\')?;
    }
    word.push(c)?;
    let place = Place::Quoted(group, quote, word, false);
    Ok(Reader { outer, place })
}

// Behind a value, or behind `=` where no value stands.
fn behind(alloc: Global, outer: Stack, group: Group, c: char) -> Result<Reader, Stop>
    ensures read { IfOk result (λ r. behind outer group c ≡ Ok r) }
    ensures fault { IfErr result (Stops (λ s. behind outer group c ≡ Err s)) }
{
    match group {
        Group::Items(items) => behind_item(outer, items, c),
        Group::Pair(begun) => behind_in_pair(alloc, outer, begun, c),
    }
}

fn behind_item(outer: Stack, items: List<Short>, c: char) -> Result<Reader, Stop>
    ensures read { IfOk result (λ r. behind_item outer items c ≡ Ok r) }
    ensures fault { IfErr result (Stops (λ s. behind_item outer items c ≡ Err s)) }
{
    match c {
        ',' => {
            let place = Place::Next(Group::Items(items));
            Ok(Reader { outer, place })
        }
        ']' => close(outer, Short::Items(items)),
        _ => Err(Stop::Refused),
    }
}

fn behind_in_pair(alloc: Global, outer: Stack, begun: Begun, c: char) -> Result<Reader, Stop>
    ensures read { IfOk result (λ r. behind_in_pair outer begun c ≡ Ok r) }
    ensures fault { IfErr result (Stops (λ s. behind_in_pair outer begun c ≡ Err s)) }
{
    match c {
        ',' => {
            let place = behind_comma(alloc, begun)?;
            Ok(Reader { outer, place })
        }
        '}' => {
            let fields = with_pair(alloc, begun)?;
            close(outer, Short::Fields(fields.into_pairs(alloc)?))
        }
        _ => Err(Stop::Refused),
    }
}

// Behind a comma in a text. Where no value stands before it, a pair must follow.
fn behind_comma(alloc: Global, begun: Begun) -> Result<Place, Stop>
    ensures read { IfOk result (λ place. place ≡ behind_comma begun) }
    ensures fault { IfErr result (Stops (λ _. ⊥)) }
{
    if begun.values.is_empty() {
        let fields = with_pair(alloc, begun)?;
        return Ok(Place::Key(fields, Text::new(alloc), true));
    }
    Ok(Place::Next(Group::Pair(begun)))
}

// Behind the bracket that closes this value.
fn close(outer: Stack, value: Short) -> Result<Reader, Stop>
    ensures read { IfOk result (λ r. closed outer value ≡ Ok r) }
    ensures fault { IfErr result (Stops (λ s. closed outer value ≡ Err s)) }
{
    match outer.pop() {
        None => Err(Stop::Refused),
        Some((group, outer)) => {
            let place = Place::Behind(with_value(group, value)?);
            Ok(Reader { outer, place })
        }
    }
}
