ghost use Rattle.std.specs.Prelude.{◌≡◌};
ghost use Rattle.jmes_syntax.specs.Marks.{single_mark, double_mark};

use crate::token::Mark;

/// The mark of two bytes.
pub fn double_mark(first: u8, second: u8) -> Option<Mark>
    ensures { result ≡ double_mark first second }
{
    match (first, second) {
        (b'&', b'&') => Some(Mark::And),
        (b'|', b'|') => Some(Mark::Or),
        (b'[', b']') => Some(Mark::Flatten),
        (b'[', b'?') => Some(Mark::OpenFilter),
        (b'=', b'=') => Some(Mark::Equal),
        (b'!', b'=') => Some(Mark::NotEqual),
        (b'<', b'=') => Some(Mark::LessOrEqual),
        (b'>', b'=') => Some(Mark::GreaterOrEqual),
        _ => None,
    }
}

/// The mark of one byte.
pub fn single_mark(byte: u8) -> Option<Mark>
    ensures { result ≡ single_mark byte }
{
    match byte {
        b'.' => Some(Mark::Dot),
        b',' => Some(Mark::Comma),
        b':' => Some(Mark::Colon),
        b'*' => Some(Mark::Star),
        b'@' => Some(Mark::Current),
        b'&' => Some(Mark::Expref),
        b'!' => Some(Mark::Not),
        b'|' => Some(Mark::Pipe),
        b'(' => Some(Mark::OpenGroup),
        b')' => Some(Mark::CloseGroup),
        b'[' => Some(Mark::OpenBracket),
        b']' => Some(Mark::CloseBracket),
        b'{' => Some(Mark::OpenBrace),
        b'}' => Some(Mark::CloseBrace),
        b'<' => Some(Mark::Less),
        b'>' => Some(Mark::Greater),
        _ => None,
    }
}
