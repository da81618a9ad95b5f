//! The functions on texts.
ghost use Rattle.std.specs.Prelude.{◌≡◌, nat_eq};
ghost use Rattle.std.specs.List.{starts_with, ends_with};
ghost use Rattle.std.specs.Str.{chars};
ghost use Rattle.texts.specs.Calls.{Answers};
ghost use Rattle.jmes_eval.specs.Answers.{is_memory};
ghost use Rattle.jmes_eval.specs.Equality.{contains_item};
ghost use Rattle.jmes_eval.specs.Texts.{contains_of, starts_with_of, ends_with_of, join_of, joined_in, is_part};

use crate::QueryFault;
use crate::equality::same;
use crate::kinds::{items, text};
use json_doc::{Doc, Text};
use std::alloc::Global;

/// Whether an element equals the value, or the value is a part of the text.
pub(crate) fn contains(doc: &Doc, value: &Doc) -> Result<Doc, QueryFault>
    ensures { Answers is_memory (λ x. x) result (contains_of doc.now value.now) }
{
    match (doc, value) {
        (Doc::Items(items), _) => Ok(Doc::Flag(contains_item(items.as_slice(), value))),
        (Doc::Str(text), Doc::Str(part)) => Ok(Doc::Flag(is_part(text.as_str(), part.as_str()))),
        (Doc::Str(_), _) => Ok(Doc::Flag(false)),
        _ => Err(QueryFault::TypeFault),
    }
}

fn contains_item(items: &[Doc], value: &Doc) -> bool
    ensures { result ≡ contains_item items.now value.now }
{
    for item in items {
        if same(item, value) {
            return true;
        }
    }
    false
}

fn is_part(text: &str, part: &str) -> bool
    ensures { result ≡ is_part (chars part.now) (chars text.now) }
{
    text.contains(part)
}

pub(crate) fn starts_with(doc: &Doc, front: &Doc) -> Result<Doc, QueryFault>
    ensures { Answers is_memory (λ x. x) result (starts_with_of doc.now front.now) }
{
    let text = text(doc)?;
    Ok(Doc::Flag(begins(text.as_str(), crate::kinds::text(front)?.as_str())))
}

pub(crate) fn ends_with(doc: &Doc, back: &Doc) -> Result<Doc, QueryFault>
    ensures { Answers is_memory (λ x. x) result (ends_with_of doc.now back.now) }
{
    let text = text(doc)?;
    Ok(Doc::Flag(ends(text.as_str(), crate::kinds::text(back)?.as_str())))
}

fn begins(text: &str, front: &str) -> bool
    ensures { result ≡ starts_with nat_eq (chars text.now) (chars front.now) }
{
    text.starts_with(front)
}

fn ends(text: &str, back: &str) -> bool
    ensures { result ≡ ends_with nat_eq (chars text.now) (chars back.now) }
{
    text.ends_with(back)
}

/// The texts of a list with a text between each two.
pub(crate) fn join(alloc: Global, glue: &Doc, doc: &Doc) -> Result<Doc, QueryFault>
    ensures { Answers is_memory (λ x. x) result (join_of glue.now doc.now) }
{
    let glue = text(glue)?;
    let items = items(doc)?;
    joined(alloc, glue, items)
}

fn joined(alloc: Global, glue: &Text, items: &[Doc]) -> Result<Doc, QueryFault>
    ensures { Answers is_memory (λ x. x) result (joined_in glue.now items.now) }
{
    let mut made = Text::new(alloc);
    let mut is_first = true;
    for item in items {
        let part = text(item)?;
        if !is_first {
            made.push_str(glue.as_str())?;
        }
        made.push_str(part.as_str())?;
        is_first = false;
    }
    Ok(Doc::Str(made))
}
