//! Shorthand texts and times of arguments.
//!
//! The trees and offsets in `stdout` were found by a recogniser of whole texts that was written from the grammar in
//! docs/rules, in Python: a tree where it takes the text; else the longest front that some further text completes.
//! Of the 85 texts with a tree, 66 have the same tree in awscli 1.45.11
//! (`awscli.shorthand.ShorthandParser().parse(text)`), printed by `json.dumps`. Where the trees differ, and where
//! one of both refuses a text, docs/DECISIONS.md says why. The form of a time was told by regular expressions that were
//! written from docs/rules; its instant is that of Python 3.11's `decimal` and `datetime`
//! (`(moment - datetime(1970, 1, 1, tzinfo=timezone.utc)) // timedelta(microseconds=1)`).
use json_doc::{Doc, List, OutOfMemory, Pairs, Text, compact};
use moments::moment;
use row_words::{text_of, told};
use shorthand::{Short, shorthand};
use std::alloc::Global;

/// The tree of a shorthand text as a document on one line, or the fault.
pub fn tree_of(alloc: Global, text: &[u8]) -> Result<Text, OutOfMemory> {
    match shorthand(alloc, &text_of(alloc, text)?) {
        Ok(tree) => compact(alloc, &document_of(alloc, &tree)?),
        Err(fault) => told(alloc, &fault),
    }
}

#[cycle(document)]
fn document_of(alloc: Global, tree: &Short) -> Result<Doc, OutOfMemory> {
    match tree {
        Short::Word(text) => Ok(Doc::Str(text.copy(alloc)?)),
        Short::Items(items) => Ok(Doc::Items(items_of(alloc, items)?)),
        Short::Fields(fields) => Ok(Doc::Fields(fields_of(alloc, fields)?)),
    }
}

#[cycle(document)]
fn items_of(alloc: Global, items: &List<Short>) -> Result<List<Doc>, OutOfMemory> {
    let mut made = List::new(alloc);
    for item in items.as_slice() {
        made.push(document_of(alloc, item)?)?;
    }
    Ok(made)
}

#[cycle(document)]
fn fields_of(alloc: Global, fields: &Pairs<Short>) -> Result<Pairs<Doc>, OutOfMemory> {
    let mut made = Pairs::new(alloc);
    for field in fields.as_slice() {
        made.put(field.key.copy(alloc)?, document_of(alloc, &field.value)?)?;
    }
    Ok(made)
}

/// The instant of a time, in microseconds from 1970 on.
pub fn instant_of(alloc: Global, text: &[u8]) -> Result<Text, OutOfMemory> {
    match moment(&text_of(alloc, text)?) {
        Some(instant) => Ok(Text::from_string(format!(in alloc; "{instant}")?)),
        None => Text::from_str(alloc, "No time"),
    }
}
