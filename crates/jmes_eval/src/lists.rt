//! The functions on lists and objects.
ghost use Rattle.std.specs.Prelude.{◌≡◌, length, reverse, map, IfOk};
ghost use Rattle.std.specs.Str.{chars};
ghost use Rattle.json_doc.specs.declared.doc.Doc.TheVariants.{Str, Items};
ghost use Rattle.texts.specs.Keys.{keys};
ghost use Rattle.texts.specs.Calls.{Answers};
ghost use Rattle.jmes_eval.specs.Answers.{is_memory};
ghost use Rattle.jmes_eval.specs.Lists.{keys_of, length_of, reverse_of, to_array_of, values_of};
ghost use Rattle.jmes_eval.specs.Inside.{looked, seen_doc};

use crate::QueryFault;
use crate::kinds::fields;
use crate::numbers::count;
use crate::seen::Seen;
use json_doc::{Doc, List, OutOfMemory, Pair, Text, copy};
use std::alloc::{AllocError, Global};

/// How many characters, elements or pairs a document has.
pub(crate) fn length(doc: &Doc) -> Result<Doc, QueryFault>
    ensures { Answers is_memory (λ x. x) result (length_of doc.now) }
{
    match doc {
        Doc::Str(text) => count(characters(text.as_str())),
        Doc::Items(items) => count(items.len()),
        Doc::Fields(fields) => count(fields.len()),
        _ => Err(QueryFault::TypeFault),
    }
}

fn characters(text: &str) -> usize
    ensures { result ≡ length (chars text.now) }
{
    text.chars().count()
}

/// The characters or elements from the last to the first.
pub(crate) fn reverse(alloc: Global, doc: &Doc) -> Result<Doc, QueryFault>
    ensures { Answers is_memory (λ x. x) result (reverse_of doc.now) }
{
    match doc {
        Doc::Str(text) => Ok(Doc::Str(reversed_text(alloc, text)?)),
        Doc::Items(items) => Ok(Doc::Items(reversed(alloc, items.as_slice())?)),
        _ => Err(QueryFault::TypeFault),
    }
}

fn reversed_text(alloc: Global, text: &Text) -> Result<Text, OutOfMemory>
    ensures { IfOk result (λ made. made ≡ reverse text.now) }
{
    let mut letters = letters(alloc, text.as_str())?;
    letters.reverse();
    text_of(alloc, letters.as_slice())
}

fn letters(alloc: Global, text: &str) -> Result<Vec<char>, AllocError>
    ensures { IfOk result (λ letters. letters.items ≡ chars text.now) }
{
    text.chars().collect(alloc)
}

fn text_of(alloc: Global, letters: &[char]) -> Result<Text, OutOfMemory>
    ensures { IfOk result (λ made. made ≡ letters.now) }
{
    let mut made = Text::new(alloc);
    for letter in letters {
        made.push(*letter)?;
    }
    Ok(made)
}

fn reversed(alloc: Global, items: &[Doc]) -> Result<List<Doc>, OutOfMemory>
    ensures { IfOk result (λ made. made ≡ reverse items.now) }
{
    let mut made = Vec::with_capacity(alloc, items.len())?;
    for item in items {
        made.push(copy(alloc, item)?)?;
    }
    made.reverse();
    Ok(List::from_vec(made))
}

/// Copies of documents that are looked at.
pub(crate) fn copies(alloc: Global, places: &[&Doc]) -> Result<Doc, OutOfMemory>
    ensures { IfOk result (λ made. made ≡ Items (looked places.now)) }
{
    let mut made = List::new(alloc);
    for place in places {
        made.push(copy(alloc, place)?)?;
    }
    Ok(Doc::Items(made))
}

/// A list as it is, any other value as a list of one.
pub(crate) fn to_array<'a>(alloc: Global, seen: Seen<'a>) -> Result<Seen<'a>, OutOfMemory>
    ensures { IfOk result (λ made. seen_doc made ≡ to_array_of (seen_doc seen.entry)) }
{
    if let Doc::Items(_) = seen.doc() {
        return Ok(seen);
    }
    let mut made = List::new(alloc);
    made.push(seen.into_doc(alloc)?)?;
    Ok(Seen::Made(Doc::Items(made)))
}

/// The keys of an object, in its order.
pub(crate) fn keys(alloc: Global, doc: &Doc) -> Result<Doc, QueryFault>
    ensures { Answers is_memory (λ x. x) result (keys_of doc.now) }
{
    let fields = fields(doc)?;
    Ok(Doc::Items(key_texts(alloc, fields.as_slice())?))
}

fn key_texts(alloc: Global, fields: &[Pair<Doc>]) -> Result<List<Doc>, OutOfMemory>
    ensures { IfOk result (λ made. made ≡ map Str (keys fields.now)) }
{
    let mut made = List::new(alloc);
    for field in fields {
        made.push(Doc::Str(field.key.copy(alloc)?))?;
    }
    Ok(made)
}

/// The values of an object, in its order.
pub(crate) fn values(alloc: Global, doc: &Doc) -> Result<Doc, QueryFault>
    ensures { Answers is_memory (λ x. x) result (values_of doc.now) }
{
    let fields = fields(doc)?;
    let places = crate::elements::values(alloc, fields.as_slice())?;
    Ok(copies(alloc, places.as_slice())?)
}
