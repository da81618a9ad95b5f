ghost use Rattle.std.specs.Prelude.{◌≡◌, IfOk};
ghost use Rattle.json_doc.specs.Scan.{skipped};
ghost use Rattle.jmes_syntax.specs.Lexing.{kind_of, kind_at, mark_at, tokened, DelimitedAt, TokenAt, Lexes};
ghost use Rattle.jmes_syntax.specs.Reading.{seen};
ghost use Rattle.texts.specs.Calls.{Finds};

use crate::delimited::{Quote, delimited};
use crate::literals::value_token;
use crate::marks::{double_mark, single_mark};
use crate::numbers::read_number;
use crate::token::{Mark, Token};
use crate::words::{begins_name, read_name};
use json_doc::{List, OutOfMemory, skip_blanks};
use std::alloc::Global;

/// The tokens of a text, and how many of its bytes are left at each and behind the last: at the end
/// of the text, or where no token stands.
#[derive(Debug, Drop)]
pub struct Lexed {
    pub tokens: List<Token>,
    pub lefts: List<usize>,
    pub left: usize,
}

/// What a token begins as.
#[derive(Clone, Copy)]
enum Kind {
    Name,
    Number,
    Delimited(Quote),
    Mark,
}

fn kind_at(bytes: &[u8]) -> Kind
    ensures { result ≡ kind_at bytes.now }
{
    match bytes.first() {
        None => Kind::Mark,
        Some(byte) => kind_of(*byte),
    }
}

fn kind_of(byte: u8) -> Kind
    ensures { result ≡ kind_of byte }
{
    if begins_name(byte) {
        Kind::Name
    } else if byte == b'-' || byte.is_ascii_digit() {
        Kind::Number
    } else if byte == b'"' {
        Kind::Delimited(Quote::Name)
    } else if byte == b'`' {
        Kind::Delimited(Quote::Literal)
    } else if byte == b'\'' {
        Kind::Delimited(Quote::Raw)
    } else {
        Kind::Mark
    }
}

// The mark in front, the longer before the shorter.
fn mark_at(bytes: &[u8]) -> Option<(Mark, &[u8])>
    ensures { Finds (λ x. (x.0, x.1.now)) result (mark_at bytes.now) }
{
    let (first, rest) = bytes.split_first()?;
    if let Some((second, more)) = rest.split_first() {
        if let Some(mark) = double_mark(*first, *second) {
            return Some((mark, more));
        }
    }
    let mark = single_mark(*first)?;
    Some((mark, rest))
}

// The token between quotes, behind the opening one.
fn read_delimited(
    alloc: Global,
    quote: Quote,
    bytes: &[u8],
) -> Result<Option<(Token, &[u8])>, OutOfMemory>
    ensures { IfOk result (λ o. DelimitedAt quote bytes.now (seen (λ x. (x.0, x.1.now)) o)) }
{
    let Some((value, rest)) = delimited(alloc, quote, bytes)? else {
        return Ok(None);
    };
    match value_token(alloc, quote, value)? {
        Some(token) => Ok(Some((token, rest))),
        None => Ok(None),
    }
}

// The token in front and the bytes behind it, where one stands there.
fn read_token(alloc: Global, bytes: &[u8]) -> Result<Option<(Token, &[u8])>, OutOfMemory>
    ensures { IfOk result (λ o. TokenAt bytes.now (seen (λ x. (x.0, x.1.now)) o)) }
{
    match kind_at(bytes) {
        Kind::Name => {
            let (name, rest) = read_name(alloc, bytes)?;
            Ok(Some((Token::Name(name), rest)))
        }
        Kind::Number => match read_number(bytes) {
            Some((number, rest)) => Ok(Some((Token::Number(number), rest))),
            None => Ok(None),
        },
        Kind::Delimited(quote) => match bytes.split_first() {
            Some((_, rest)) => read_delimited(alloc, quote, rest),
            None => Ok(None),
        },
        Kind::Mark => match mark_at(bytes) {
            Some((mark, rest)) => Ok(Some((Token::Mark(mark), rest))),
            None => Ok(None),
        },
    }
}

/// The tokens of a text.
pub fn lex(alloc: Global, bytes: &[u8]) -> Result<Lexed, OutOfMemory>
    ensures { IfOk result (λ x. Lexes (skipped bytes.now) x.tokens x.lefts x.left) }
{
    let mut tokens = List::new(alloc);
    let mut lefts = List::new(alloc);
    let mut rest = skip_blanks(bytes);
    loop {
        let Some((token, after)) = read_token(alloc, rest)? else {
            let left = rest.len();
            return Ok(Lexed {
                tokens,
                lefts,
                left,
            });
        };
        tokens.push(token)?;
        lefts.push(rest.len())?;
        rest = skip_blanks(after);
    }
}
