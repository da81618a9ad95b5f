//! Blanks at the ends of a text: spaces and tabs.
ghost use Rattle.std.specs.Prelude.{◌≡◌, ◌++◌, ◌∷◌, ℕ, true, IfSome, IfNone, [], reverse};
ghost use Rattle.std.specs.Str.{chars};
ghost use Rattle.texts.specs.Blanks.{is_blank, without_first_blanks, trimmed};

/// A text without the spaces and tabs at both of its ends.
pub fn trimmed(text: &str) -> &str
    ensures { chars result.now ≡ trimmed (chars text.now) }
{
    without_last_blanks(without_first_blanks(text))
}

fn without_first_blanks(text: &str) -> &str
    ensures { chars result.now ≡ without_first_blanks (chars text.now) }
{
    let mut rest = text;
    while let Some(shorter) = strip_first_blank(rest) {
        rest = shorter;
    }
    rest
}

fn without_last_blanks(text: &str) -> &str
    ensures { chars result.now ≡ reverse (without_first_blanks (reverse (chars text.now))) }
{
    let mut rest = text;
    while let Some(shorter) = strip_last_blank(rest) {
        rest = shorter;
    }
    rest
}

/// What follows a blank at the start.
fn strip_first_blank(text: &str) -> Option<&str>
    ensures some { IfSome result (λ rest. (c : ℕ) × (is_blank c ≡ true) × (chars text.now ≡ c ∷ chars rest.now)) }
    ensures none { IfNone result (without_first_blanks (chars text.now) ≡ chars text.now) }
{
    match text.strip_prefix(' ') {
        Some(rest) => Some(rest),
        None => text.strip_prefix('\t'),
    }
}

/// What stands before a blank at the end.
fn strip_last_blank(text: &str) -> Option<&str>
    ensures some { IfSome result (λ rest. (c : ℕ) × (is_blank c ≡ true) × (chars text.now ≡ chars rest.now ++ c ∷ [])) }
    ensures none { IfNone result (without_first_blanks (reverse (chars text.now)) ≡ reverse (chars text.now)) }
{
    match text.strip_suffix(' ') {
        Some(rest) => Some(rest),
        None => text.strip_suffix('\t'),
    }
}
