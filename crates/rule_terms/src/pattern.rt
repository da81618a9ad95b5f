//! The patterns of partitions: which regions are theirs.
ghost use Rattle.std.specs.Prelude.{◌≡◌, ◌∷◌, [], IfOk, IsTrue, bytes_eq};
ghost use Rattle.std.specs.List.{list_any};
ghost use Rattle.std.specs.Str.{chars};
ghost use Rattle.texts.specs.Ascii.{is_ascii_text};
ghost use Rattle.texts.specs.Calls.{Finds};
ghost use Rattle.rule_terms.specs.Patterns.{pattern_of, inside_anchors, parts_of, before_hyphen, part_of, inside_parentheses, words_of, are_words, is_word, fits, all_fit, part_fits};

use crate::characters::{are_digits, are_letters, are_small};
use std::alloc::Global;
use texts::{List, OutOfMemory, Text, cut, without_first, without_last};

/// What one part of a region's name is to be.
#[derive(Debug, Drop)]
pub enum Part {
    /// One of these words.
    Words(List<Text>),
    /// `\w+`: letters, digits and `_`.
    Letters,
    /// `\d+`: digits.
    Digits,
}

/// The parts of a pattern, or none where a text is no pattern: `^`, parts joined by `\-`, and `$`.
pub fn pattern_of(alloc: Global, text: &str) -> Result<Option<List<Part>>, OutOfMemory>
    ensures { IfOk result (λ pattern. pattern ≡ pattern_of (chars text.now)) }
{
    let Some(inner) = inside_anchors(text) else {
        return Ok(None);
    };
    let pieces = cut(alloc, inner, ['-'].as_slice())?;
    parts_of(alloc, pieces.as_slice())
}

/// What stands between `^` and `$`.
fn inside_anchors(text: &str) -> Option<&str>
    ensures { Finds (λ inner. chars inner.now) result (inside_anchors (chars text.now)) }
{
    without_last(without_first(text, '^')?, '$')
}

/// The parts for what stands between the hyphens: a backslash stands before each hyphen.
fn parts_of(alloc: Global, pieces: &[Text]) -> Result<Option<List<Part>>, OutOfMemory>
    ensures { IfOk result (λ parts. parts ≡ parts_of pieces.now) }
{
    let mut parts = List::new(alloc);
    for (at, piece) in pieces.iter().enumerate() {
        let Some(text) = before_hyphen(piece.as_str(), at + 1 == pieces.len()) else {
            return Ok(None);
        };
        let Some(part) = part_of(alloc, text)? else {
            return Ok(None);
        };
        parts.push(part)?;
    }
    Ok(Some(parts))
}

fn before_hyphen(piece: &str, is_last: bool) -> Option<&str>
    ensures { Finds (λ text. chars text.now) result (before_hyphen is_last (chars piece.now)) }
{
    if is_last {
        Some(piece)
    } else {
        without_last(piece, '\\')
    }
}

/// A part: `\w+`, `\d+`, a word, or words between `|` in parentheses.
fn part_of(alloc: Global, text: &str) -> Result<Option<Part>, OutOfMemory>
    ensures { IfOk result (λ part. part ≡ part_of (chars text.now)) }
{
    if is(text, "\\w+") {
        return Ok(Some(Part::Letters));
    }
    if is(text, "\\d+") {
        return Ok(Some(Part::Digits));
    }
    match inside_parentheses(text) {
        Some(inner) => Ok(words_of(cut(alloc, inner, ['|'].as_slice())?)),
        None => Ok(words_of(one(alloc, text)?)),
    }
}

/// Whether these are the same.
#[tactic(auto, using(texts::proofs::Texts::chars_ascii))]
fn is(text: &str, other: &str) -> bool
    requires { IsTrue (is_ascii_text other.now) }
    ensures { result ≡ bytes_eq (chars text.now) other.now }
{
    text == other
}

/// These words, if each is one: small letters and digits.
fn words_of(words: List<Text>) -> Option<Part>
    ensures { result ≡ words_of words }
{
    if are_words(words.as_slice()) {
        Some(Part::Words(words))
    } else {
        None
    }
}

fn are_words(words: &[Text]) -> bool
    ensures { result ≡ are_words words.now }
{
    for word in words {
        if !is_word(word) {
            return false;
        }
    }
    true
}

fn is_word(word: &Text) -> bool
    ensures { result ≡ is_word word.now }
{
    are_small(word.as_str())
}

/// The list of this text alone.
fn one(alloc: Global, text: &str) -> Result<List<Text>, OutOfMemory>
    ensures { IfOk result (λ texts. texts ≡ chars text.now ∷ []) }
{
    let mut texts = List::new(alloc);
    texts.push(Text::from_str(alloc, text)?)?;
    Ok(texts)
}

fn inside_parentheses(text: &str) -> Option<&str>
    ensures { Finds (λ inner. chars inner.now) result (inside_parentheses (chars text.now)) }
{
    without_last(without_first(text, '(')?, ')')
}

/// Whether a region fits a pattern: cut at its hyphens, it has as many parts, and each fits.
pub fn fits(alloc: Global, pattern: &[Part], region: &str) -> Result<bool, OutOfMemory>
    ensures { IfOk result (λ fitting. fitting ≡ fits pattern.now (chars region.now)) }
{
    let words = cut(alloc, region, ['-'].as_slice())?;
    Ok(all_fit(pattern, words.as_slice()))
}

fn all_fit(pattern: &[Part], words: &[Text]) -> bool
    ensures { result ≡ all_fit pattern.now words.now }
{
    if pattern.len() != words.len() {
        return false;
    }
    for (part, word) in pattern.iter().zip(words) {
        if !part_fits(part, word) {
            return false;
        }
    }
    true
}

fn part_fits(part: &Part, word: &Text) -> bool
    ensures { result ≡ part_fits part.now word.now }
{
    match part {
        Part::Words(words) => is_listed(words.as_slice(), word),
        Part::Letters => are_letters(word.as_str()),
        Part::Digits => are_digits(word.as_str()),
    }
}

fn is_listed(words: &[Text], word: &Text) -> bool
    ensures { result ≡ list_any (λ listed. bytes_eq listed word.now) words.now }
{
    words.iter().any(|listed| listed.is(word.as_str()))
}
