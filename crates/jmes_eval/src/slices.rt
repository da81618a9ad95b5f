//! Elements of a list by their places.
ghost use Rattle.std.specs.Prelude.{◌≡◌, ◌<◌, List, length, reverse, slice_get, option_and_then, IfOk, IfSome};
ghost use Rattle.std.specs.Option.{option_copied, option_map_or};
ghost use Rattle.json_doc.specs.declared.doc.Doc.{Doc};
ghost use Rattle.jmes_eval.specs.Inside.{seen_all};
ghost use Rattle.jmes_eval.specs.Slices.{between, element_at, every, place_of, places_to, sliced};

use crate::seen::Seen;
use jmes_syntax::{Slice, Whole};
use json_doc::{Doc, OutOfMemory};
use std::alloc::Global;

/// The element at a place; a negative one counts from the end.
pub(crate) fn element_at(n: Whole, items: &[Doc]) -> Option<&Doc>
    ensures { option_copied result ≡ element_at n items.now }
{
    match place_in(n, items.len()) {
        Some(at) => items.get(at),
        None => None,
    }
}

/// The place that is meant in a list of this length, where it has one.
pub(crate) fn place_in(n: Whole, len: usize) -> Option<usize>
    ensures within { IfSome result (λ at. at < len) }
    ensures element { (items : List Doc) → length items ≡ len → option_and_then (slice_get items) result ≡ element_at n items }
{
    let size = n.magnitude as usize;
    let at = if n.is_negative {
        len.checked_sub(size)?
    } else {
        size
    };
    if at < len { Some(at) } else { None }
}

/// The elements of a slice, to look at.
pub(crate) fn sliced<'a>(
    alloc: Global,
    slice: Slice,
    items: &'a [Doc],
) -> Result<Vec<Seen<'a>>, OutOfMemory>
    ensures { IfOk result (λ made. seen_all made.items ≡ sliced slice items.now) }
{
    let step = slice.step.magnitude as usize;
    let len = items.len();
    if slice.step.is_negative {
        let from = places_to(len, slice.stop, 0);
        let to = places_to(len, slice.start, len);
        return backwards(alloc, between(items, from, to), step);
    }
    let from = place_of(len, slice.start, 0);
    let to = place_of(len, slice.stop, len);
    forwards(alloc, between(items, from, to), step)
}

/// A place, cut to the bounds of a list of this length.
fn place_of(len: usize, n: Option<Whole>, default: usize) -> usize
    ensures { result ≡ option_map_or (place_of len) n default }
{
    let Some(n) = n else {
        return default;
    };
    let size = n.magnitude as usize;
    if n.is_negative {
        return len.saturating_sub(size);
    }
    size.min(len)
}

/// How many elements stand up to a place and at it, cut to the bounds.
fn places_to(len: usize, n: Option<Whole>, default: usize) -> usize
    ensures { result ≡ option_map_or (places_to len) n default }
{
    let Some(n) = n else {
        return default;
    };
    let size = n.magnitude as usize;
    if n.is_negative {
        return len.saturating_sub(size.saturating_sub(1));
    }
    if size < len {
        return size + 1;
    }
    len
}

fn between(items: &[Doc], from: usize, to: usize) -> &[Doc]
    ensures { result.now ≡ between from to items.now }
{
    let (front, _) = items.split_at(to.min(items.len()));
    let (_, back) = front.split_at(from.min(front.len()));
    back
}

/// The first element and each one so many further.
fn forwards<'a>(alloc: Global, items: &'a [Doc], step: usize) -> Result<Vec<Seen<'a>>, OutOfMemory>
    ensures { IfOk result (λ made. seen_all made.items ≡ every step 0 items.now) }
{
    let skipped = step.saturating_sub(1);
    let mut made = Vec::new(alloc);
    let mut rest = items;
    'elements: loop {
        let Some((first, others)) = rest.split_first() else {
            return Ok(made);
        };
        made.push(Seen::At(first))?;
        let (_, more) = others.split_at(skipped.min(others.len()));
        rest = more;
    }
}

/// The last element and each one so many before.
fn backwards<'a>(alloc: Global, items: &'a [Doc], step: usize) -> Result<Vec<Seen<'a>>, OutOfMemory>
    ensures { IfOk result (λ made. seen_all made.items ≡ every step 0 (reverse items.now)) }
{
    let skipped = step.saturating_sub(1);
    let mut made = Vec::new(alloc);
    let mut rest = items;
    'elements: loop {
        let Some((last, others)) = rest.split_last() else {
            return Ok(made);
        };
        made.push(Seen::At(last))?;
        let (more, _) = others.split_at(others.len().saturating_sub(skipped));
        rest = more;
    }
}
