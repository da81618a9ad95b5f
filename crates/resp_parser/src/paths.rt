//! Paths of faults, made from the inside out: a path takes memory only where there is a fault.
ghost use Rattle.std.specs.Prelude.{◌≡◌, ◌++◌, [], IfOk, MatchResult};
ghost use Rattle.resp_parser.specs.declared.body_fault.BodyFault.TheVariants as fault;
ghost use Rattle.resp_parser.specs.Inside.{IsBelow};
ghost use Rattle.resp_parser.specs.Paths.{shown, to_item, to_name};

use crate::body_fault::BodyFault;
use json_doc::{OutOfMemory, Text};
use std::alloc::Global;

/// The fault of the whole.
pub(crate) fn whole(alloc: Global) -> BodyFault
    ensures { result ≡ fault.At [] }
{
    BodyFault::At(Text::new(alloc))
}

/// The fault of a member or an entry, as one of the whole.
pub(crate) fn below_name(alloc: Global, name: &Text, fault: BodyFault) -> BodyFault
    ensures { IsBelow (to_name name.now) fault result }
{
    match fault {
        BodyFault::At(path) => at(name_path(alloc, name, &path)),
        BodyFault::OutOfMemory => BodyFault::OutOfMemory,
    }
}

/// The fault of an item, as one of the whole.
pub(crate) fn below_item(alloc: Global, place: usize, fault: BodyFault) -> BodyFault
    ensures { IsBelow (to_item place) fault result }
{
    match fault {
        BodyFault::At(path) => at(item_path(alloc, place, &path)),
        BodyFault::OutOfMemory => BodyFault::OutOfMemory,
    }
}

fn at(path: Result<Text, OutOfMemory>) -> BodyFault
    ensures { MatchResult path (λ path. result ≡ fault.At path) (λ _. result ≡ fault.OutOfMemory) }
{
    match path {
        Ok(path) => BodyFault::At(path),
        Err(_) => BodyFault::OutOfMemory,
    }
}

fn name_path(alloc: Global, name: &Text, path: &Text) -> Result<Text, OutOfMemory>
    ensures { IfOk result (λ made. made ≡ to_name name.now ++ path.now) }
{
    let mut made = Text::new(alloc);
    made.push('.')?;
    made.push_str(name.as_str())?;
    made.push_str(path.as_str())?;
    Ok(made)
}

fn item_path(alloc: Global, place: usize, path: &Text) -> Result<Text, OutOfMemory>
    ensures { IfOk result (λ made. made ≡ to_item place ++ path.now) }
{
    let mut made = Text::new(alloc);
    made.push('[')?;
    made.push_str(format!(in alloc; "{place}")?.as_str())?;
    made.push(']')?;
    made.push_str(path.as_str())?;
    Ok(made)
}

/// The path as faults have it: without the point of the first name.
pub(crate) fn shown(alloc: Global, path: &Text) -> Result<Text, OutOfMemory>
    ensures { IfOk result (λ made. made ≡ shown path.now) }
{
    let text = path.as_str();
    match text.strip_prefix('.') {
        Some(rest) => Text::from_str(alloc, rest),
        None => Text::from_str(alloc, text),
    }
}
