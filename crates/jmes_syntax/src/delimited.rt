ghost use Rattle.std.specs.Prelude.{◌≡◌, ◌++◌, false, IfOk, OnOk};
ghost use Rattle.texts.specs.Calls.{Finds};
ghost use Rattle.jmes_syntax.specs.Delimited.{quote_byte, pair_of, delimited};

use json_doc::{Bytes, OutOfMemory};
use std::alloc::Global;

/// What stands between two equal quotes, by the quote.
#[derive(Clone, Copy, Debug, PartialEq, Eq)]
pub enum Quote {
    /// A quoted name in `"`. Every pair is kept, for the JSON string to read.
    Name,
    /// A literal in `` ` ``.
    Literal,
    /// A raw text in `'`.
    Raw,
}

fn quote_byte(quote: Quote) -> u8
    ensures { result ≡ quote_byte quote }
{
    match quote {
        Quote::Name => b'"',
        Quote::Literal => b'`',
        Quote::Raw => b'\'',
    }
}

// What a backslash and this byte behind it stand for, put at the end.
fn push_pair(value: &mut Bytes, quote: Quote, byte: u8) -> Result<(), OutOfMemory>
    ensures { OnOk result (value.new ≡ value.old ++ pair_of quote byte) }
{
    if quote != Quote::Name && byte == quote_byte(quote) {
        value.extend(&[byte])
    } else {
        value.extend(&[b'\\', byte])
    }
}

/// The bytes up to the closing quote, behind the opening one, and what is behind it. Without a
/// closing quote there is nothing.
pub fn delimited(
    alloc: Global,
    quote: Quote,
    bytes: &[u8],
) -> Result<Option<(Bytes, &[u8])>, OutOfMemory>
    ensures { IfOk result (λ o. Finds (λ x. (x.0, x.1.now)) o (delimited quote false bytes.now)) }
{
    let mut value = Bytes::new(alloc);
    let mut in_pair = false;
    for (at, byte) in bytes.iter().enumerate() {
        if in_pair {
            push_pair(&mut value, quote, *byte)?;
            in_pair = false;
        } else if *byte == quote_byte(quote) {
            return Ok(Some((value, &bytes[at + 1..])));
        } else if *byte == b'\\' {
            in_pair = true;
        } else {
            value.extend(&[*byte])?;
        }
    }
    Ok(None)
}
