//! The words of a line, cut at option words.
ghost use Rattle.std.specs.Prelude.{◌≡◌, ◌∷◌, [], ◌≤◌, ℕ, List as Seq, length, Some, None, drop, if◌then◌else◌, option_to_list, IfOk};
ghost use Rattle.std.specs.Option.{option_copied};
ghost use Rattle.arg_table.specs.Words.{has_dashes, is_option, option_of, option_in, cut, values_of};

use std::alloc::Global;
use texts::{List, OutOfMemory, Text};

/// An option of a line and the plain words behind it, up to the next option.
#[derive(Debug, Drop)]
pub struct Group {
    /// The option's name, without its dashes.
    pub option: Text,
    /// The value that a `=` joins to it.
    pub joined: Option<Text>,
    pub words: List<Text>,
}

/// What an option word says: its name, which ends at the first `=`, and its joined value.
#[derive(Drop)]
pub struct OptionWord {
    pub name: Text,
    pub joined: Option<Text>,
}

/// Whether a word is an option; all others are plain.
pub fn is_option(word: &Text) -> bool
    ensures { result ≡ is_option word.now }
{
    has_dashes(word.as_str())
}

fn has_dashes(word: &str) -> bool
    ensures { result ≡ has_dashes word.now }
{
    word.starts_with("--") && word.len() > 2
}

/// The option that a word is.
pub fn option_of(alloc: Global, word: &Text) -> Result<Option<OptionWord>, OutOfMemory>
    ensures { IfOk result (λ option. option ≡ option_of word.now) }
{
    match after_dashes(word.as_str()) {
        Some(text) => Ok(Some(option_in(alloc, text)?)),
        None => Ok(None),
    }
}

fn after_dashes(word: &str) -> Option<&str>
    ensures { option_copied result ≡ (if has_dashes word.now then Some (drop 2 word.now) else None) }
{
    let text = word.strip_prefix("--")?;
    if text.is_empty() { None } else { Some(text) }
}

fn option_in(alloc: Global, text: &str) -> Result<OptionWord, OutOfMemory>
    ensures { IfOk result (λ option. option ≡ option_in text.now) }
{
    match text.split_once('=') {
        Some((name, value)) => Ok(OptionWord {
            name: Text::from_str(alloc, name)?,
            joined: Some(Text::from_str(alloc, value)?),
        }),
        None => Ok(OptionWord {
            name: Text::from_str(alloc, text)?,
            joined: None,
        }),
    }
}

/// The plain words in front, and the words from the next option on.
pub fn split_plain(words: &[Text]) -> (&[Text], &[Text])
    ensures plain { result.0.now ≡ (cut words.now).plain }
    ensures others { cut result.1.now ≡ record { plain = []; groups = (cut words.now).groups } }
    ensures shorter { length result.1.now ≤ length words.now }
{
    words.split_at(count_plain(words))
}

/// How many plain words stand in front.
fn count_plain(words: &[Text]) -> usize
    ensures { result ≡ length (cut words.now).plain }
{
    for (at, word) in words.iter().enumerate() {
        if is_option(word) {
            return at;
        }
    }
    words.len()
}
