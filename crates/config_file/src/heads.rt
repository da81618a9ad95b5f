//! The heads of sections, and the profiles that they name.
ghost use Rattle.std.specs.Prelude.{◌≡◌};
ghost use Rattle.std.specs.List.{list_all};
ghost use Rattle.std.specs.Option.{option_copied};
ghost use Rattle.config_file.specs.Lines.{in_brackets, is_word_byte, word_in, in_quotes, has_no_quote, quoted_in, after_profile, quoted_or_word, config_profile, profile_named};

use crate::FileKind;
use crate::trimmed::is_blank;

/// The text between `[` and `]`, where it isn't empty.
pub fn in_brackets(text: &str) -> Option<&str>
    ensures { option_copied result ≡ in_brackets text.now }
{
    if text.starts_with('[') && text.ends_with(']') && text.len() > 2 {
        Some(&text[1..text.len() - 1])
    } else {
        None
    }
}

/// The profile that the name of a section stands for. In the credentials file each is a profile.
pub fn profile_named(kind: FileKind, name: &str) -> Option<&str>
    ensures { option_copied result ≡ profile_named kind name.now }
{
    match kind {
        FileKind::Config => config_profile(name),
        FileKind::Credentials => Some(name),
    }
}

/// The profile of a section of the config file: `default`, `profile x` or `profile "x"`.
fn config_profile(name: &str) -> Option<&str>
    ensures { option_copied result ≡ config_profile name.now }
{
    if name == "default" {
        return Some(name);
    }
    quoted_or_word(after_profile(name)?)
}

/// What comes after `profile` and a space, where a name begins so.
fn after_profile(name: &str) -> Option<&str>
    ensures { option_copied result ≡ after_profile name.now }
{
    name.strip_prefix("profile ")
}

fn quoted_or_word(text: &str) -> Option<&str>
    ensures { option_copied result ≡ quoted_or_word text.now }
{
    quoted(text).or(word(text))
}

/// The text between two `"`, where it has no third.
fn quoted(text: &str) -> Option<&str>
    ensures { option_copied result ≡ quoted_in text.now }
{
    let inside = in_quotes(text)?;
    if has_no_quote(inside) {
        Some(inside)
    } else {
        None
    }
}

/// What stands between the first and the last byte, where these are two `"`.
fn in_quotes(text: &str) -> Option<&str>
    ensures { option_copied result ≡ in_quotes text.now }
{
    if text.starts_with('"') && text.ends_with('"') && text.len() > 1 {
        Some(&text[1..text.len() - 1])
    } else {
        None
    }
}

fn has_no_quote(text: &str) -> bool
    ensures { result ≡ has_no_quote text.now }
{
    text.bytes().all(|b| b != b'"')
}

/// One word: no blanks and no `"`.
fn word(text: &str) -> Option<&str>
    ensures { option_copied result ≡ word_in text.now }
{
    if !text.is_empty() && has_word_bytes(text) {
        Some(text)
    } else {
        None
    }
}

fn has_word_bytes(text: &str) -> bool
    ensures { result ≡ list_all is_word_byte text.now }
{
    text.bytes().all(|b| is_word_byte(b))
}

fn is_word_byte(b: u8) -> bool
    ensures { result ≡ is_word_byte b }
{
    !(is_blank(b) || b == b'"')
}
