//! The names directly below a folder, from the paths of files.

ghost use Rattle.std.specs.Prelude.{◌≡◌, ℕ, ◌++◌, ◌∷◌, ◌↔◌, ◌⊎◌, ◌≢◌, IfOk, IfNone, IfSome, OnOk, OnSome, AllPairs, Contains, []};
ghost use Rattle.std.specs.Str.{chars};
ghost use Rattle.aws_world.specs.FileTree.{HasBelow, IsBelow, IsFirstPart, IsListing};
ghost use Rattle.texts.specs.Order.{IsBefore};

use std::alloc::Global;
use texts::{Bytes, List, OutOfMemory, Text, put_in_order};

/// The names directly below a folder, in the order of their bytes; None where no path lies below.
pub fn names_below(
    alloc: Global,
    folder: &Text,
    files: &[(Text, Bytes)],
) -> Result<Option<List<Text>>, OutOfMemory>
    ensures none { IfOk result (λ found. IfNone found (¬ HasBelow folder.now files.now)) }
    ensures some { IfOk result (λ found. OnSome found (HasBelow folder.now files.now)) }
    ensures names { IfOk result (λ found. IfSome found (IsListing folder.now files.now)) }
{
    let mut names = Vec::new(alloc);
    let mut is_there = false;
    for (path, _) in files {
        let Some(rest) = after_folder(folder, path) else {
            continue;
        };
        is_there = true;
        add_name(&mut names, first_part(alloc, rest)?)?;
    }
    if is_there {
        Ok(Some(List::from_vec(names)))
    } else {
        Ok(None)
    }
}

/// What follows the folder and `/` in a path.
fn after_folder<'a>(folder: &Text, path: &'a Text) -> Option<&'a str>
    ensures none { IfNone result (¬ IsBelow folder.now path.now) }
    ensures rest { IfSome result (λ rest. path.now ≡ folder.now ++ 47 ∷ chars rest.now) }
{
    let Some(rest) = path.as_str().strip_prefix(folder.as_str()) else {
        return None;
    };
    rest.strip_prefix('/')
}

/// The part of a path before the first `/`.
fn first_part(alloc: Global, rest: &str) -> Result<Text, OutOfMemory>
    ensures { IfOk result (IsFirstPart (chars rest.now)) }
{
    let mut part = Text::new(alloc);
    for c in rest.chars() {
        if c == '/' {
            return Ok(part);
        }
        part.push(c)?;
    }
    Ok(part)
}

/// Puts a name into its place, where it isn't empty and isn't there.
fn add_name(names: &mut Vec<Text>, name: Text) -> Result<(), OutOfMemory>
    requires { AllPairs IsBefore names.old.items }
    ensures ascending { OnOk result (AllPairs IsBefore names.new.items) }
    ensures exact { OnOk result ((other : List ℕ) → Contains names.new.items other
        ↔ (Contains names.old.items other ⊎ ((other ≡ name) × (name ≢ [])))) }
{
    if name.is_empty() {
        return Ok(());
    }
    put_in_order(names, name)
}
