//! Lists in order.
ghost use Rattle.std.specs.Option.{option_copied};
ghost use Rattle.std.specs.Prelude.{◌≡◌, option_map, IfOk, OnOk};
ghost use Rattle.texts.specs.Calls.{Answers};
ghost use Rattle.jmes_eval.specs.Answers.{is_memory};
ghost use Rattle.jmes_eval.specs.Inside.{entries_of, entry_of, looked};
ghost use Rattle.jmes_eval.specs.Lists.{alike_items, is_number, is_text, max_of, min_of, sort_of};
ghost use Rattle.jmes_eval.specs.Meaning.{key_before, key_behind};
ghost use Rattle.jmes_eval.specs.Orders.{doc_or_null, first_of, is_before, is_behind, picked, sorted};
ghost use Rattle.std.specs.List.{list_all};

use crate::QueryFault;
use crate::elements::elements;
use crate::kinds::items;
use crate::lists::copies;
use crate::orders::compare;
use crate::seen::Seen;
use json_doc::{Doc, OutOfMemory, copy};
use std::alloc::Global;

/// An element of a list, with the key by which the list is sorted.
#[derive(Drop)]
pub(crate) struct Entry<'a> {
    pub key: Seen<'a>,
    pub element: &'a Doc,
}

/// A list of numbers or of texts in order.
pub(crate) fn sort(alloc: Global, doc: &Doc) -> Result<Doc, QueryFault>
    ensures { Answers is_memory (λ x. x) result (sort_of doc.now) }
{
    let places = ascending(alloc, alike_items(doc)?)?;
    Ok(copies(alloc, places.as_slice())?)
}

/// The least of a list of numbers or of texts, the first of those that tie.
pub(crate) fn min(alloc: Global, doc: &Doc) -> Result<Doc, QueryFault>
    ensures { Answers is_memory (λ x. x) result (min_of doc.now) }
{
    let least = least(alike_items(doc)?);
    Ok(copy_or_null(alloc, least)?)
}

/// The greatest of a list of numbers or of texts, the first of those that tie.
pub(crate) fn max(alloc: Global, doc: &Doc) -> Result<Doc, QueryFault>
    ensures { Answers is_memory (λ x. x) result (max_of doc.now) }
{
    let greatest = greatest(alike_items(doc)?);
    Ok(copy_or_null(alloc, greatest)?)
}

/// The elements of a list of numbers or of texts.
fn alike_items(doc: &Doc) -> Result<&[Doc], QueryFault>
    ensures { Answers is_memory (λ items. items.now) result (alike_items doc.now) }
{
    let items = items(doc)?;
    if are_numbers(items) || are_texts(items) {
        return Ok(items);
    }
    Err(QueryFault::TypeFault)
}

fn are_numbers(items: &[Doc]) -> bool
    ensures { result ≡ list_all is_number items.now }
{
    for item in items {
        match item {
            Doc::Number(_) => {}
            _ => return false,
        }
    }
    true
}

fn are_texts(items: &[Doc]) -> bool
    ensures { result ≡ list_all is_text items.now }
{
    for item in items {
        match item {
            Doc::Str(_) => {}
            _ => return false,
        }
    }
    true
}

fn copy_or_null(alloc: Global, place: Option<&Doc>) -> Result<Doc, OutOfMemory>
    ensures { IfOk result (λ made. made ≡ doc_or_null (option_copied place.entry)) }
{
    match place {
        Some(place) => copy(alloc, place),
        None => Ok(Doc::Null),
    }
}

fn precedes(a: &Doc, b: &Doc) -> bool
    ensures { result ≡ is_before a.now b.now }
{
    compare(a, b).is_lt()
}

/// The lesser of an item and what was found behind it; the item where they tie.
fn lesser<'a>(item: &'a Doc, found: Option<&'a Doc>) -> &'a Doc
    ensures { result.now ≡ picked is_before item.now (option_copied found.entry) }
{
    match found {
        Some(other) if precedes(other, item) => other,
        _ => item,
    }
}

/// The greater of them.
fn greater<'a>(item: &'a Doc, found: Option<&'a Doc>) -> &'a Doc
    ensures { result.now ≡ picked is_behind item.now (option_copied found.entry) }
{
    match found {
        Some(other) if precedes(item, other) => other,
        _ => item,
    }
}

fn least(items: &[Doc]) -> Option<&Doc>
    ensures { option_copied result ≡ first_of (sorted is_before items.now) }
{
    let mut found: Option<&Doc> = None;
    for i in (0..items.len()).rev() {
        found = Some(lesser(&items[i], found));
    }
    found
}

fn greatest(items: &[Doc]) -> Option<&Doc>
    ensures { option_copied result ≡ first_of (sorted is_behind items.now) }
{
    let mut found: Option<&Doc> = None;
    for i in (0..items.len()).rev() {
        found = Some(greater(&items[i], found));
    }
    found
}

fn ascending<'a>(alloc: Global, items: &'a [Doc]) -> Result<Vec<&'a Doc>, OutOfMemory>
    ensures { IfOk result (λ made. looked made.items ≡ sorted is_before items.now) }
{
    let mut places = elements(alloc, items)?;
    places.sort_by(|a, b| compare(a, b))?;
    Ok(places)
}

/// Puts entries in the order of their keys.
pub(crate) fn ascend(entries: &mut Vec<Entry<'_>>) -> Result<(), OutOfMemory>
    ensures { OnOk result (entries_of entries.new.items ≡ sorted key_before (entries_of entries.old.items)) }
{
    entries.sort_by(|a, b| compare(a.key.doc(), b.key.doc()))?;
    Ok(())
}

fn lesser_entry<'a, 'b>(entry: &'b Entry<'a>, found: Option<&'b Entry<'a>>) -> &'b Entry<'a>
    ensures { entry_of result.now ≡ picked key_before (entry_of entry.now) (option_map entry_of (option_copied found.entry)) }
{
    match found {
        Some(other) if precedes(other.key.doc(), entry.key.doc()) => other,
        _ => entry,
    }
}

fn greater_entry<'a, 'b>(entry: &'b Entry<'a>, found: Option<&'b Entry<'a>>) -> &'b Entry<'a>
    ensures { entry_of result.now ≡ picked key_behind (entry_of entry.now) (option_map entry_of (option_copied found.entry)) }
{
    match found {
        Some(other) if precedes(entry.key.doc(), other.key.doc()) => other,
        _ => entry,
    }
}

/// The entry with the least key, the first of those that tie.
pub(crate) fn least_entry<'a, 'b>(entries: &'b [Entry<'a>]) -> Option<&'b Entry<'a>>
    ensures { option_map entry_of (option_copied result) ≡ first_of (sorted key_before (entries_of entries.now)) }
{
    let mut found: Option<&'b Entry<'a>> = None;
    for i in (0..entries.len()).rev() {
        found = Some(lesser_entry(&entries[i], found));
    }
    found
}

/// The entry with the greatest key, the first of those that tie.
pub(crate) fn greatest_entry<'a, 'b>(entries: &'b [Entry<'a>]) -> Option<&'b Entry<'a>>
    ensures { option_map entry_of (option_copied result) ≡ first_of (sorted key_behind (entries_of entries.now)) }
{
    let mut found: Option<&'b Entry<'a>> = None;
    for i in (0..entries.len()).rev() {
        found = Some(greater_entry(&entries[i], found));
    }
    found
}
