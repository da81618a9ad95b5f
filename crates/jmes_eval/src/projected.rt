//! The elements that a projection goes over: places of a document that is looked at, and what a
//! document that was made gives away.
ghost use Rattle.std.specs.Prelude.{◌≡◌, ◌++◌, map, option_map, IfOk, OnOk};
ghost use Rattle.std.specs.Option.{option_copied};
ghost use Rattle.jmes_eval.specs.Kinds.{fields_of, items_of};
ghost use Rattle.jmes_eval.specs.Lists.{values_in};
ghost use Rattle.jmes_eval.specs.Meaning.{joined_lists};
ghost use Rattle.jmes_eval.specs.Inside.{seen_all, seen_doc};
ghost use Rattle.jmes_eval.specs.Slices.{sliced};

use crate::seen::Seen;
use crate::slices::sliced;
use jmes_syntax::Slice;
use json_doc::{Doc, OutOfMemory, Pair};
use std::alloc::Global;

/// The elements of a list.
pub(crate) fn elements<'a>(
    alloc: Global,
    at: Seen<'a>,
) -> Result<Option<Vec<Seen<'a>>>, OutOfMemory>
    ensures { IfOk result (λ made. option_map (λ all. seen_all all.items) made ≡ items_of (seen_doc at.entry)) }
{
    match at {
        Seen::At(doc) => match doc {
            Doc::Items(items) => Ok(Some(all_at(alloc, items.as_slice())?)),
            _ => Ok(None),
        },
        Seen::Made(doc) => match doc {
            Doc::Items(items) => Ok(Some(all_made(alloc, items.into_vec())?)),
            _ => Ok(None),
        },
    }
}

fn all_at<'a>(alloc: Global, items: &'a [Doc]) -> Result<Vec<Seen<'a>>, OutOfMemory>
    ensures { IfOk result (λ made. seen_all made.items ≡ items.now) }
{
    let mut made = Vec::with_capacity(alloc, items.len())?;
    for item in items {
        made.push(Seen::At(item))?;
    }
    Ok(made)
}

fn all_made<'a>(alloc: Global, items: Vec<Doc>) -> Result<Vec<Seen<'a>>, OutOfMemory>
    ensures { IfOk result (λ made. seen_all made.items ≡ items.items) }
{
    let mut made = Vec::with_capacity(alloc, items.len())?;
    for item in items {
        made.push(Seen::Made(item))?;
    }
    Ok(made)
}

/// The values of an object.
pub(crate) fn values<'a>(alloc: Global, at: Seen<'a>) -> Result<Option<Vec<Seen<'a>>>, OutOfMemory>
    ensures { IfOk result (λ made. option_map (λ all. seen_all all.items) made ≡ option_map values_in (fields_of (seen_doc at.entry))) }
{
    match at {
        Seen::At(doc) => match doc {
            Doc::Fields(fields) => Ok(Some(values_at(alloc, fields.as_slice())?)),
            _ => Ok(None),
        },
        Seen::Made(doc) => match doc {
            Doc::Fields(fields) => Ok(Some(values_made(alloc, fields.into_vec())?)),
            _ => Ok(None),
        },
    }
}

fn values_at<'a>(alloc: Global, fields: &'a [Pair<Doc>]) -> Result<Vec<Seen<'a>>, OutOfMemory>
    ensures { IfOk result (λ made. seen_all made.items ≡ values_in fields.now) }
{
    let mut made = Vec::with_capacity(alloc, fields.len())?;
    for field in fields {
        made.push(Seen::At(&field.value))?;
    }
    Ok(made)
}

fn values_made<'a>(alloc: Global, fields: Vec<Pair<Doc>>) -> Result<Vec<Seen<'a>>, OutOfMemory>
    ensures { IfOk result (λ made. seen_all made.items ≡ values_in fields.items) }
{
    let mut made = Vec::with_capacity(alloc, fields.len())?;
    for field in fields {
        made.push(Seen::Made(field.value))?;
    }
    Ok(made)
}

/// The elements of a list, of which those that are lists are joined by one level.
pub(crate) fn joined_lists<'a>(
    alloc: Global,
    at: Seen<'a>,
) -> Result<Option<Vec<Seen<'a>>>, OutOfMemory>
    ensures { IfOk result (λ made. option_map (λ all. seen_all all.items) made ≡ option_map joined_lists (items_of (seen_doc at.entry))) }
{
    match at {
        Seen::At(doc) => match doc {
            Doc::Items(items) => Ok(Some(joined_at(alloc, items.as_slice())?)),
            _ => Ok(None),
        },
        Seen::Made(doc) => match doc {
            Doc::Items(items) => Ok(Some(joined_made(alloc, items.into_vec())?)),
            _ => Ok(None),
        },
    }
}

fn joined_at<'a>(alloc: Global, items: &'a [Doc]) -> Result<Vec<Seen<'a>>, OutOfMemory>
    ensures { IfOk result (λ made. seen_all made.items ≡ joined_lists items.now) }
{
    let mut made = Vec::new(alloc);
    for item in items {
        match item {
            Doc::Items(inner) => push_at(&mut made, inner.as_slice())?,
            _ => made.push(Seen::At(item))?,
        }
    }
    Ok(made)
}

fn push_at<'a>(made: &mut Vec<Seen<'a>>, items: &'a [Doc]) -> Result<(), OutOfMemory>
    ensures { OnOk result (seen_all made.new.items ≡ seen_all made.old.items ++ items.now) }
{
    for item in items {
        made.push(Seen::At(item))?;
    }
    Ok(())
}

fn joined_made<'a>(alloc: Global, items: Vec<Doc>) -> Result<Vec<Seen<'a>>, OutOfMemory>
    ensures { IfOk result (λ made. seen_all made.items ≡ joined_lists items.items) }
{
    let mut made = Vec::new(alloc);
    for item in items {
        match item {
            Doc::Items(inner) => push_made(&mut made, inner.into_vec())?,
            other => made.push(Seen::Made(other))?,
        }
    }
    Ok(made)
}

fn push_made(made: &mut Vec<Seen<'_>>, items: Vec<Doc>) -> Result<(), OutOfMemory>
    ensures { OnOk result (seen_all made.new.items ≡ seen_all made.old.items ++ items.items) }
{
    for item in items {
        made.push(Seen::Made(item))?;
    }
    Ok(())
}

/// The elements of a slice of a list, which are looked at.
pub(crate) fn slice_of<'a>(
    alloc: Global,
    slice: Slice,
    doc: &'a Doc,
) -> Result<Option<Vec<Seen<'a>>>, OutOfMemory>
    ensures { IfOk result (λ made. option_map (λ all. seen_all all.items) made ≡ option_map (sliced slice) (items_of doc.now)) }
{
    match doc {
        Doc::Items(items) => Ok(Some(sliced(alloc, slice, items.as_slice())?)),
        _ => Ok(None),
    }
}
