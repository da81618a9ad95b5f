//! The names of commands and arguments, made from the names in a model by four substitutions.
ghost use Rattle.std.specs.Prelude.{◌≡◌, ◌≤◌, ◌∷◌, ◌++◌, List, ℕ, true, if◌then◌else◌, length, map, take, drop, IfOk, IfSome, IfNone};
ghost use Rattle.std.specs.Char.{to_ascii_lowercase};
ghost use Rattle.model_files.specs.Names.{has_hyphen, plural_apart, begins_word, words_apart, begins_capital, is_small, capitals_apart, command_name, capitals_start, behind};
ghost use Rattle.model_files.specs.declared.names.Stage.TheVariants as stage;

use crate::characters::{chars_of, text_of};
use json_doc::{OutOfMemory, Text};
use std::alloc::Global;

/// The name on the command line of what has this name in a model: `ListWebACLs` is
/// `list-web-acls`. A name with a `-` stays. Else a plural of capitals at the end, such as `ACLs`,
/// is put behind a `-`; then each word of a capital and small letters is; then each capital behind
/// a small letter or digit is. All is lowered.
#[tactic(auto, unfolding(crate::specs::Names::command_name))]
pub fn command_name(alloc: Global, name: &Text) -> Result<Text, OutOfMemory>
    ensures { IfOk result (λ made. made ≡ command_name name.now) }
{
    let chars = chars_of(alloc, name)?;
    if has_hyphen(chars.as_slice()) {
        return name.copy(alloc);
    }
    let plural = plural_apart(alloc, chars.as_slice())?;
    let words = words_apart(alloc, plural.as_slice())?;
    let capitals = capitals_apart(alloc, words.as_slice())?;
    text_of(alloc, capitals.as_slice())
}

fn has_hyphen(chars: &[char]) -> bool
    ensures { result ≡ has_hyphen chars.now }
{
    chars.iter().any(|c| *c == '-')
}

/// A plural of capitals at the end lowered and behind a `-`.
fn plural_apart(alloc: Global, chars: &[char]) -> Result<Vec<char>, OutOfMemory>
    ensures { IfOk result (λ made. made.items ≡ plural_apart chars.now) }
{
    let mut made = Vec::with_capacity(alloc, chars.len())?;
    let Some(start) = plural_start(chars) else {
        made.extend_from_slice(chars)?;
        return Ok(made);
    };
    made.extend_from_slice(&chars[..start])?;
    made.push('-')?;
    for c in &chars[start..] {
        made.push(c.to_ascii_lowercase())?;
    }
    Ok(made)
}

/// Where two or more capitals and an `s` at the end begin.
fn plural_start(chars: &[char]) -> Option<usize>
    ensures within { IfSome result (λ at. at ≤ length chars.now) }
    ensures some { IfSome result (λ at. plural_apart chars.now ≡ take at chars.now ++ 45 ∷ map to_ascii_lowercase (drop at chars.now)) }
    ensures none { IfNone result (plural_apart chars.now ≡ chars.now) }
{
    let (last, front) = chars.split_last()?;
    if *last != 's' {
        return None;
    }
    let start = capitals_start(front);
    if front.len() - start >= 2 {
        Some(start)
    } else {
        None
    }
}

/// Where the capitals at the end begin.
fn capitals_start(chars: &[char]) -> usize
    ensures value { result ≡ capitals_start chars.now }
    ensures within { result ≤ length chars.now }
{
    let mut start = 0;
    for (at, c) in chars.iter().enumerate() {
        if !c.is_ascii_uppercase() {
            start = at + 1;
        }
    }
    start
}

/// Where a walk over a name is.
#[derive(Clone, Copy, PartialEq, Eq)]
pub enum Stage {
    /// Before any character.
    Free,
    /// At the capital of a word behind a `-`.
    Capital,
    /// In the small letters of that word.
    Small,
}

/// A `-` between any character and a word of one capital and small letters behind it. What a word
/// has taken is not the character before the next.
fn words_apart(alloc: Global, chars: &[char]) -> Result<Vec<char>, OutOfMemory>
    ensures { IfOk result (λ made. made.items ≡ words_apart stage.Free chars.now) }
{
    let mut made = Vec::with_capacity(alloc, chars.len())?;
    let mut stage = Stage::Free;
    for (at, c) in chars.iter().enumerate() {
        made.push(*c)?;
        stage = next_stage(stage, *c, &chars[at + 1..]);
        if stage == Stage::Capital {
            made.push('-')?;
        }
    }
    Ok(made)
}

/// Where a walk is behind a character, with these characters left.
fn next_stage(stage: Stage, c: char, left: &[char]) -> Stage
    ensures { words_apart stage (c ∷ left.now) ≡ c ∷ behind result left.now }
{
    match stage {
        Stage::Capital => Stage::Small,
        Stage::Small if c.is_ascii_lowercase() => Stage::Small,
        _ if begins_word(left) => Stage::Capital,
        _ => Stage::Free,
    }
}

/// Whether these begin with a capital and a small letter.
fn begins_word(chars: &[char]) -> bool
    ensures { result ≡ begins_word chars.now }
{
    match chars {
        [capital, small, ..] => capital.is_ascii_uppercase() && small.is_ascii_lowercase(),
        _ => false,
    }
}

/// A `-` between a small letter or digit and a capital behind it, and all lowered.
fn capitals_apart(alloc: Global, chars: &[char]) -> Result<Vec<char>, OutOfMemory>
    ensures { IfOk result (λ made. made.items ≡ capitals_apart chars.now) }
{
    let mut made = Vec::with_capacity(alloc, chars.len())?;
    for (at, c) in chars.iter().enumerate() {
        made.push(c.to_ascii_lowercase())?;
        if is_small(*c) && begins_capital(&chars[at + 1..]) {
            made.push('-')?;
        }
    }
    Ok(made)
}

fn is_small(c: char) -> bool
    ensures { result ≡ is_small c }
{
    c.is_ascii_lowercase() || c.is_ascii_digit()
}

fn begins_capital(chars: &[char]) -> bool
    ensures { result ≡ begins_capital chars.now }
{
    match chars {
        [c, ..] => c.is_ascii_uppercase(),
        [] => false,
    }
}
