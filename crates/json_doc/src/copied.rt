ghost use Rattle.std.specs.Prelude.{◌≡◌, IfOk};

use crate::{Doc, List, OutOfMemory, Pairs};
use std::alloc::Global;

/// An equal document.
#[cycle(copying)]
pub fn copy(alloc: Global, doc: &Doc) -> Result<Doc, OutOfMemory>
    ensures { IfOk result (λ made. made ≡ doc.now) }
{
    match doc {
        Doc::Null => Ok(Doc::Null),
        Doc::Flag(flag) => Ok(Doc::Flag(*flag)),
        Doc::Number(n) => Ok(Doc::Number(*n)),
        Doc::Str(text) => Ok(Doc::Str(text.copy(alloc)?)),
        Doc::Items(items) => Ok(Doc::Items(copy_items(alloc, items)?)),
        Doc::Fields(fields) => Ok(Doc::Fields(copy_fields(alloc, fields)?)),
    }
}

#[cycle(copying)]
fn copy_items(alloc: Global, items: &List<Doc>) -> Result<List<Doc>, OutOfMemory>
    ensures { IfOk result (λ made. made ≡ items.now) }
{
    let mut made = List::new(alloc);
    for item in items.as_slice() {
        made.push(copy(alloc, item)?)?;
    }
    Ok(made)
}

#[cycle(copying)]
fn copy_fields(alloc: Global, fields: &Pairs<Doc>) -> Result<Pairs<Doc>, OutOfMemory>
    ensures { IfOk result (λ made. made ≡ fields.now) }
{
    let mut made = Pairs::new(alloc);
    for field in fields.as_slice() {
        made.push_new(field.key.copy(alloc)?, copy(alloc, &field.value)?)?;
    }
    Ok(made)
}
