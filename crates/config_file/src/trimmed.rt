//! Blanks at the ends of a text. The blanks are the space and the tab.
ghost use Rattle.std.specs.Prelude.{◌≡◌};
ghost use Rattle.config_file.specs.Trimmed.{is_blank, blanks_before, blanks_behind, front_trimmed, end_trimmed, trimmed};

pub fn is_blank(b: u8) -> bool
    ensures { result ≡ is_blank b }
{
    b == b' ' || b == b'\t'
}

/// How many blanks a text begins with.
pub fn blanks_before(text: &str) -> usize
    ensures { result ≡ blanks_before text.now }
{
    text.bytes().take_while(|b| is_blank(*b)).count()
}

/// How many blanks a text ends with.
fn blanks_behind(text: &str) -> usize
    ensures { result ≡ blanks_behind text.now }
{
    text.as_bytes()
        .iter()
        .rev()
        .take_while(|b| is_blank(**b))
        .count()
}

/// A text without the blanks that it begins with.
pub fn front_trimmed(text: &str) -> &str
    ensures { result.now ≡ front_trimmed text.now }
{
    &text[blanks_before(text)..]
}

/// A text without the blanks that it ends with.
pub fn end_trimmed(text: &str) -> &str
    ensures { result.now ≡ end_trimmed text.now }
{
    &text[..text.len() - blanks_behind(text)]
}

/// A text without the blanks at both of its ends.
pub fn trimmed(text: &str) -> &str
    ensures { result.now ≡ trimmed text.now }
{
    end_trimmed(front_trimmed(text))
}
