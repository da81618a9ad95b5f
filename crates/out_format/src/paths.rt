ghost use Rattle.std.specs.Prelude.{◌≡◌, IfOk};
ghost use Rattle.out_format.specs.Table.{member_path, item_path};

use json_doc::{OutOfMemory, Text};
use std::alloc::Global;

/// `PATH.KEY`.
pub(crate) fn member_path(alloc: Global, path: &Text, key: &Text) -> Result<Text, OutOfMemory>
    ensures { IfOk result (λ made. made ≡ member_path path.now key.now) }
{
    let mut made = path.copy(alloc)?;
    made.push('.')?;
    made.push_str(key.as_str())?;
    Ok(made)
}

/// `PATH[PLACE]`.
pub(crate) fn item_path(alloc: Global, path: &Text, place: usize) -> Result<Text, OutOfMemory>
    ensures { IfOk result (λ made. made ≡ item_path path.now place) }
{
    let digits = format!(in alloc; "{place}")?;
    let mut made = path.copy(alloc)?;
    made.push('[')?;
    made.push_str(digits.as_str())?;
    made.push(']')?;
    Ok(made)
}
