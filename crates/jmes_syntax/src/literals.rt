ghost use Rattle.std.specs.Prelude.{◌≡◌, ℕ, List, IfOk, IfSome, IfNone};
ghost use Rattle.jmes_syntax.specs.Literals.{in_quotes, DocumentOf, StringOf, BareOf, LiteralOf, TextOf, ValueOf};

use crate::delimited::Quote;
use crate::token::Token;
use json_doc::{Bytes, Doc, OutOfMemory, ReadFault, Text, is_json_text, read, skip_blanks};
use std::alloc::Global;
use std::str;

fn in_quotes(alloc: Global, text: &[u8]) -> Result<Bytes, OutOfMemory>
    ensures { IfOk result (λ made. made ≡ in_quotes text.now) }
{
    let mut made = Bytes::new(alloc);
    made.extend(b"\"")?;
    made.extend(text)?;
    made.extend(b"\"")?;
    Ok(made)
}

fn into_text(doc: Doc) -> Option<Text>
    ensures some { IfSome result (λ t. doc ≡ Doc.Str t) }
    ensures none { IfNone result ((t : List ℕ) → doc ≡ Doc.Str t → ⊥) }
{
    match doc {
        Doc::Str(text) => Some(text),
        _ => None,
    }
}

// The document of these bytes, where they are one.
fn document_of(alloc: Global, bytes: &[u8]) -> Result<Option<Doc>, OutOfMemory>
    ensures { IfOk result (DocumentOf bytes.now) }
{
    match read(alloc, bytes) {
        Ok(doc) => Ok(Some(doc)),
        Err(ReadFault::Syntax(_)) => Ok(None),
        Err(ReadFault::TooDeep(_)) => Ok(None),
        Err(ReadFault::NumberTooWide(_)) => Ok(None),
        Err(ReadFault::OutOfMemory) => Err(OutOfMemory),
    }
}

// The JSON string whose inside this is.
fn string_of(alloc: Global, inside: &[u8]) -> Result<Option<Text>, OutOfMemory>
    ensures { IfOk result (StringOf inside.now) }
{
    let quoted = in_quotes(alloc, inside)?;
    match document_of(alloc, quoted.as_slice())? {
        Some(doc) => Ok(into_text(doc)),
        None => Ok(None),
    }
}

// The text of a literal that is no document.
fn bare_of(alloc: Global, text: &[u8]) -> Result<Option<Text>, OutOfMemory>
    ensures { IfOk result (BareOf text.now) }
{
    if is_json_text(alloc, text)? {
        return Ok(None);
    }
    string_of(alloc, skip_blanks(text))
}

// The document of a literal.
fn literal_of(alloc: Global, text: &[u8]) -> Result<Option<Doc>, OutOfMemory>
    ensures { IfOk result (LiteralOf text.now) }
{
    match document_of(alloc, text)? {
        Some(doc) => Ok(Some(doc)),
        None => match bare_of(alloc, text)? {
            Some(bare) => Ok(Some(Doc::Str(bare))),
            None => Ok(None),
        },
    }
}

// The text of these bytes, where they are UTF-8.
fn text_of(alloc: Global, bytes: &[u8]) -> Result<Option<Text>, OutOfMemory>
    ensures { IfOk result (TextOf bytes.now) }
{
    match str::from_utf8(bytes) {
        Ok(text) => Ok(Some(Text::from_str(alloc, text)?)),
        Err(_) => Ok(None),
    }
}

/// The token of what stands between these quotes.
pub fn value_token(alloc: Global, quote: Quote, value: Bytes) -> Result<Option<Token>, OutOfMemory>
    ensures { IfOk result (ValueOf quote value) }
{
    match quote {
        Quote::Name => match string_of(alloc, value.as_slice())? {
            Some(name) => Ok(Some(Token::Quoted(name))),
            None => Ok(None),
        },
        Quote::Literal => match literal_of(alloc, value.as_slice())? {
            Some(doc) => Ok(Some(Token::Literal(doc))),
            None => Ok(None),
        },
        Quote::Raw => match text_of(alloc, value.as_slice())? {
            Some(text) => Ok(Some(Token::Literal(Doc::Str(text)))),
            None => Ok(None),
        },
    }
}
