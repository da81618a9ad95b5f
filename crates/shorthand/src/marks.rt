ghost use Rattle.std.specs.Prelude.{◌≡◌};
ghost use Rattle.shorthand.specs.Grammar.{is_key_char, ends_bare};

/// Whether a character may stand in a key.
pub fn is_key_char(c: char) -> bool
    ensures { result ≡ is_key_char c }
{
    c.is_ascii_alphanumeric() || c == '_' || c == '-' || c == '.' || c == '#' || c == '/'
}

/// Whether a value without quotes ends before a character, where so many brackets are open.
pub fn ends_bare(depth: usize, c: char) -> bool
    ensures { result ≡ ends_bare depth c }
{
    c == ',' || (depth > 0 && (c == ']' || c == '}'))
}
