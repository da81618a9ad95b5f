ghost use Rattle.std.specs.Prelude.{◌≡◌};
ghost use Rattle.std.specs.Option.{option_copied};
ghost use Rattle.texts.specs.Calls.{Finds};
ghost use Rattle.jmes_syntax.specs.Tokens.{is_mark, behind, name_at, quoted_at, literal_at};

use crate::Whole;
use json_doc::{Doc, Text};

/// The marks of the grammar.
#[derive(Clone, Copy, Debug, PartialEq, Eq)]
pub enum Mark {
    /// `.`
    Dot,
    /// `,`
    Comma,
    /// `:`
    Colon,
    /// `*`
    Star,
    /// `@`
    Current,
    /// `&`
    Expref,
    /// `!`
    Not,
    /// `&&`
    And,
    /// `||`
    Or,
    /// `|`
    Pipe,
    /// `(`
    OpenGroup,
    /// `)`
    CloseGroup,
    /// `[`
    OpenBracket,
    /// `]`
    CloseBracket,
    /// `{`
    OpenBrace,
    /// `}`
    CloseBrace,
    /// `[]`
    Flatten,
    /// `[?`
    OpenFilter,
    /// `==`
    Equal,
    /// `!=`
    NotEqual,
    /// `<`
    Less,
    /// `<=`
    LessOrEqual,
    /// `>`
    Greater,
    /// `>=`
    GreaterOrEqual,
}

/// What a text is cut into, the blanks left out.
#[derive(Debug, Drop)]
pub enum Token {
    Mark(Mark),
    Name(Text),
    Quoted(Text),
    Number(Whole),
    /// A literal in backticks or a raw text in quotes.
    Literal(Doc),
}

fn is_mark(token: &Token, mark: Mark) -> bool
    ensures { result ≡ is_mark mark token.now }
{
    match token {
        Token::Mark(own) => *own == mark,
        Token::Name(_) => false,
        Token::Quoted(_) => false,
        Token::Number(_) => false,
        Token::Literal(_) => false,
    }
}

/// The tokens behind this mark, where it stands in front.
pub fn strip(tokens: &[Token], mark: Mark) -> Option<&[Token]>
    ensures { behind mark tokens.now ≡ option_copied result }
{
    let (token, rest) = tokens.split_first()?;
    if is_mark(token, mark) {
        Some(rest)
    } else {
        None
    }
}

/// The name in front that isn't quoted, and what is behind it.
pub fn name_at(tokens: &[Token]) -> Option<(&Text, &[Token])>
    ensures { Finds (λ x. (x.0.now, x.1.now)) result (name_at tokens.now) }
{
    match tokens.split_first() {
        Some((Token::Name(name), rest)) => Some((name, rest)),
        _ => None,
    }
}

/// The quoted name in front, and what is behind it.
pub fn quoted_at(tokens: &[Token]) -> Option<(&Text, &[Token])>
    ensures { Finds (λ x. (x.0.now, x.1.now)) result (quoted_at tokens.now) }
{
    match tokens.split_first() {
        Some((Token::Quoted(name), rest)) => Some((name, rest)),
        _ => None,
    }
}

/// The literal in front, and what is behind it.
pub fn literal_at(tokens: &[Token]) -> Option<(&Doc, &[Token])>
    ensures { Finds (λ x. (x.0.now, x.1.now)) result (literal_at tokens.now) }
{
    match tokens.split_first() {
        Some((Token::Literal(doc), rest)) => Some((doc, rest)),
        _ => None,
    }
}
