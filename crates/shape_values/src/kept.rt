//! Values that are kept as they are, where no shape is known.
ghost use Rattle.std.specs.Prelude.{◌≡◌, map, IfOk};
ghost use Rattle.typed_value.specs.Fits.{with_values};
ghost use Rattle.shape_values.specs.Kept.{kept_document, kept_short};

use json_doc::{Doc, List, OutOfMemory, Pairs};
use shorthand::Short;
use std::alloc::Global;
use typed_value::Typed;

/// A document as it is.
#[cycle(keeping)]
pub fn kept_document(alloc: Global, doc: &Doc) -> Result<Typed, OutOfMemory>
    ensures { IfOk result (λ value. value ≡ kept_document doc.now) }
{
    match doc {
        Doc::Null => Ok(Typed::Null),
        Doc::Flag(flag) => Ok(Typed::Flag(*flag)),
        Doc::Number(n) => Ok(Typed::Number(*n)),
        Doc::Str(text) => Ok(Typed::Text(text.copy(alloc)?)),
        Doc::Items(items) => Ok(Typed::Items(kept_items(alloc, items.as_slice())?)),
        Doc::Fields(fields) => Ok(Typed::Fields(kept_fields(alloc, fields)?)),
    }
}

#[cycle(keeping)]
pub(crate) fn kept_items(alloc: Global, items: &[Doc]) -> Result<List<Typed>, OutOfMemory>
    ensures { IfOk result (λ values. values ≡ map kept_document items.now) }
{
    let mut made = List::new(alloc);
    for doc in items {
        made.push(kept_document(alloc, doc)?)?;
    }
    Ok(made)
}

#[cycle(keeping)]
pub(crate) fn kept_fields(alloc: Global, fields: &Pairs<Doc>) -> Result<Pairs<Typed>, OutOfMemory>
    ensures { IfOk result (λ values. values ≡ with_values kept_document fields.now) }
{
    let mut made = Pairs::with_capacity(alloc, fields.len())?;
    for field in fields.as_slice() {
        made.push_new(field.key.copy(alloc)?, kept_document(alloc, &field.value)?)?;
    }
    Ok(made)
}

/// A shorthand tree as it is.
#[cycle(keeping_trees)]
pub fn kept_short(alloc: Global, tree: &Short) -> Result<Typed, OutOfMemory>
    ensures { IfOk result (λ value. value ≡ kept_short tree.now) }
{
    match tree {
        Short::Word(text) => Ok(Typed::Text(text.copy(alloc)?)),
        Short::Items(items) => Ok(Typed::Items(kept_trees(alloc, items.as_slice())?)),
        Short::Fields(fields) => Ok(Typed::Fields(kept_pairs(alloc, fields)?)),
    }
}

#[cycle(keeping_trees)]
fn kept_trees(alloc: Global, items: &[Short]) -> Result<List<Typed>, OutOfMemory>
    ensures { IfOk result (λ values. values ≡ map kept_short items.now) }
{
    let mut made = List::new(alloc);
    for tree in items {
        made.push(kept_short(alloc, tree)?)?;
    }
    Ok(made)
}

#[cycle(keeping_trees)]
fn kept_pairs(alloc: Global, fields: &Pairs<Short>) -> Result<Pairs<Typed>, OutOfMemory>
    ensures { IfOk result (λ values. values ≡ with_values kept_short fields.now) }
{
    let mut made = Pairs::with_capacity(alloc, fields.len())?;
    for field in fields.as_slice() {
        made.push_new(field.key.copy(alloc)?, kept_short(alloc, &field.value)?)?;
    }
    Ok(made)
}
