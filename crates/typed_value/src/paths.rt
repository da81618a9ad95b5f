ghost use Rattle.std.specs.Prelude.{◌≡◌, IfOk};
ghost use Rattle.typed_value.specs.Paths.{below, item_path, shown};

use json_doc::{OutOfMemory, Text};
use std::alloc::Global;

/// The path of a member or an entry.
pub(crate) fn below(alloc: Global, path: &Text, key: &Text) -> Result<Text, OutOfMemory>
    ensures { IfOk result (λ made. made ≡ below path.now key.now) }
{
    let mut made = path.copy(alloc)?;
    made.push('.')?;
    made.push_str(key.as_str())?;
    Ok(made)
}

/// The path of an item.
pub(crate) fn item_path(alloc: Global, path: &Text, at: usize) -> Result<Text, OutOfMemory>
    ensures { IfOk result (λ made. made ≡ item_path path.now at) }
{
    let mut made = path.copy(alloc)?;
    made.push('[')?;
    made.push_str(format!(in alloc; "{at}")?.as_str())?;
    made.push(']')?;
    Ok(made)
}

/// The path as faults have it: without the point of the first name.
pub(crate) fn shown(alloc: Global, path: &Text) -> Result<Text, OutOfMemory>
    ensures { IfOk result (λ made. made ≡ shown path.now) }
{
    let text = path.as_str();
    match text.strip_prefix('.') {
        Some(rest) => Text::from_str(alloc, rest),
        None => Text::from_str(alloc, text),
    }
}
