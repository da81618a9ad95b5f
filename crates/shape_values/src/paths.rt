//! Paths of faults, made from the inside out: a path takes memory only where there is a fault.
ghost use Rattle.std.specs.Prelude.{◌≡◌, ◌++◌, IfOk};
ghost use Rattle.texts.specs.Calls.{Answers, Unless};
ghost use Rattle.shape_values.specs.Faults.{is_memory, moved, under, to_name, to_item, shown, path_from, fault_from, from_path};

use crate::ArgFault;
use std::alloc::Global;
use texts::{OutOfMemory, Text};

/// What stands under a key, as a part of the whole.
pub fn under_key<T>(alloc: Global, key: &Text, part: Result<T, ArgFault>) -> Result<T, ArgFault>
    ensures { Answers is_memory (λ x. x) result (under (to_name key.now) part) }
{
    match part {
        Ok(value) => Ok(value),
        Err(ArgFault::Bad(path, kind)) => Err(ArgFault::Bad(key_path(alloc, key, &path)?, kind)),
        Err(fault) => Err(fault),
    }
}

/// An item, as a part of the whole.
pub fn under_item<T>(alloc: Global, at: usize, part: Result<T, ArgFault>) -> Result<T, ArgFault>
    ensures { Answers is_memory (λ x. x) result (under (to_item at) part) }
{
    match part {
        Ok(value) => Ok(value),
        Err(ArgFault::Bad(path, kind)) => Err(ArgFault::Bad(item_path(alloc, at, &path)?, kind)),
        Err(fault) => Err(fault),
    }
}

/// What has a name of its own, which its paths begin with.
pub fn named<T>(alloc: Global, name: &Text, part: Result<T, ArgFault>) -> Result<T, ArgFault>
    ensures { Answers is_memory (λ x. x) result (under name.now part) }
{
    match part {
        Ok(value) => Ok(value),
        Err(ArgFault::Bad(path, kind)) => Err(ArgFault::Bad(joined(alloc, name, &path)?, kind)),
        Err(fault) => Err(fault),
    }
}

/// A value whose path is this one.
pub fn from_path<T>(alloc: Global, start: &Text, part: Result<T, ArgFault>) -> Result<T, ArgFault>
    ensures { Answers is_memory (λ x. x) result (from_path start.now part) }
{
    match part {
        Ok(value) => Ok(value),
        Err(ArgFault::Bad(path, kind)) => Err(ArgFault::Bad(path_from(alloc, start, &path)?, kind)),
        Err(fault) => Err(fault),
    }
}

fn path_from(alloc: Global, start: &Text, path: &Text) -> Result<Text, OutOfMemory>
    ensures { IfOk result (λ made. made ≡ path_from start.now path.now) }
{
    if start.is_empty() {
        shown(alloc, path)
    } else {
        joined(alloc, start, path)
    }
}

/// A path without the point of its first name.
fn shown(alloc: Global, path: &Text) -> Result<Text, OutOfMemory>
    ensures { IfOk result (λ made. made ≡ shown path.now) }
{
    let text = path.as_str();
    match text.strip_prefix('.') {
        Some(rest) => Text::from_str(alloc, rest),
        None => Text::from_str(alloc, text),
    }
}

fn joined(alloc: Global, front: &Text, path: &Text) -> Result<Text, OutOfMemory>
    ensures { IfOk result (λ made. made ≡ front.now ++ path.now) }
{
    let mut made = front.copy(alloc)?;
    made.push_str(path.as_str())?;
    Ok(made)
}

fn key_path(alloc: Global, key: &Text, path: &Text) -> Result<Text, OutOfMemory>
    ensures { IfOk result (λ made. made ≡ to_name key.now ++ path.now) }
{
    let mut made = Text::new(alloc);
    made.push('.')?;
    made.push_str(key.as_str())?;
    made.push_str(path.as_str())?;
    Ok(made)
}

fn item_path(alloc: Global, at: usize, path: &Text) -> Result<Text, OutOfMemory>
    ensures { IfOk result (λ made. made ≡ to_item at ++ path.now) }
{
    let mut made = Text::new(alloc);
    made.push('[')?;
    made.push_str(format!(in alloc; "{at}")?.as_str())?;
    made.push(']')?;
    made.push_str(path.as_str())?;
    Ok(made)
}
