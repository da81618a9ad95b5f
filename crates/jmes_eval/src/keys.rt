//! Elements with their keys.
ghost use Rattle.std.specs.Option.{option_copied};
ghost use Rattle.std.specs.Prelude.{◌≡◌, map, option_map, IfOk};
ghost use Rattle.json_doc.specs.declared.doc.Doc.TheVariants.{Items};
ghost use Rattle.jmes_eval.specs.Inside.{entries_of, entry_of, fits_first, seen_doc};
ghost use Rattle.jmes_eval.specs.Meaning.{element_in, fits};

use crate::seen::Seen;
use crate::sorting::Entry;
use json_doc::{Doc, List, OutOfMemory, copy};
use std::alloc::Global;

/// Whether a key may follow the others: a number follows numbers, and a text texts.
pub(crate) fn fits(entries: &[Entry<'_>], key: &Seen<'_>) -> bool
    ensures { result ≡ fits_first (entries_of entries.now) (seen_doc key.now) }
{
    match entries.first() {
        Some(entry) => are_alike(entry.key.doc(), key.doc()),
        None => are_alike(key.doc(), key.doc()),
    }
}

fn are_alike(first: &Doc, key: &Doc) -> bool
    ensures { result ≡ fits first.now key.now }
{
    match (first, key) {
        (Doc::Number(_), Doc::Number(_)) => true,
        (Doc::Str(_), Doc::Str(_)) => true,
        _ => false,
    }
}

/// Copies of the elements in their order.
pub(crate) fn in_order(alloc: Global, entries: &[Entry<'_>]) -> Result<Doc, OutOfMemory>
    ensures { IfOk result (λ made. made ≡ Items (map (λ p. p.1) (entries_of entries.now))) }
{
    let mut made = List::new(alloc);
    for entry in entries {
        made.push(copy(alloc, entry.element)?)?;
    }
    Ok(Doc::Items(made))
}

/// A copy of an entry's element, or null.
pub(crate) fn element_or_null(alloc: Global, entry: Option<&Entry<'_>>) -> Result<Doc, OutOfMemory>
    ensures { IfOk result (λ made. made ≡ element_in (option_map entry_of (option_copied entry.entry))) }
{
    match entry {
        Some(entry) => copy(alloc, entry.element),
        None => Ok(Doc::Null),
    }
}
