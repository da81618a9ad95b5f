//! Texts made of characters of one kind.
ghost use Rattle.std.specs.Prelude.{◌≡◌};
ghost use Rattle.std.specs.Char.{is_ascii_digit};
ghost use Rattle.std.specs.Str.{chars};
ghost use Rattle.rule_terms.specs.Characters.{is_empty, is_made_of, is_small, is_letter};

pub fn is_empty(text: &str) -> bool
    ensures { result ≡ is_empty (chars text.now) }
{
    text.is_empty()
}

/// Whether a text is one small letter or digit, or more.
pub fn are_small(text: &str) -> bool
    ensures { result ≡ is_made_of is_small (chars text.now) }
{
    !text.is_empty()
        && text
            .chars()
            .all(|c| c.is_ascii_lowercase() || c.is_ascii_digit())
}

/// Whether a text is one letter, digit or `_`, or more.
pub fn are_letters(text: &str) -> bool
    ensures { result ≡ is_made_of is_letter (chars text.now) }
{
    !text.is_empty() && text.chars().all(|c| c.is_ascii_alphanumeric() || c == '_')
}

/// Whether a text is one digit or more.
pub fn are_digits(text: &str) -> bool
    ensures { result ≡ is_made_of is_ascii_digit (chars text.now) }
{
    !text.is_empty() && text.chars().all(|c| c.is_ascii_digit())
}
