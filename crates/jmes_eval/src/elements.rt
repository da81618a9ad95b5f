//! The elements of lists and the values of objects, to look at.
ghost use Rattle.std.specs.Prelude.{◌≡◌, IfOk};
ghost use Rattle.jmes_eval.specs.Lists.{values_in};
ghost use Rattle.jmes_eval.specs.Inside.{looked};

use json_doc::{Doc, OutOfMemory, Pair};
use std::alloc::Global;

/// The elements of a list.
pub(crate) fn elements<'a>(alloc: Global, items: &'a [Doc]) -> Result<Vec<&'a Doc>, OutOfMemory>
    ensures { IfOk result (λ made. looked made.items ≡ items.now) }
{
    let mut made = Vec::with_capacity(alloc, items.len())?;
    for item in items {
        made.push(item)?;
    }
    Ok(made)
}

/// The values of an object.
pub(crate) fn values<'a>(
    alloc: Global,
    fields: &'a [Pair<Doc>],
) -> Result<Vec<&'a Doc>, OutOfMemory>
    ensures { IfOk result (λ made. looked made.items ≡ values_in fields.now) }
{
    let mut made = Vec::with_capacity(alloc, fields.len())?;
    for field in fields {
        made.push(&field.value)?;
    }
    Ok(made)
}
