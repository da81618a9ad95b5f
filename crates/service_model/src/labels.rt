//! The labels of a URI or host prefix, in braces.
ghost use Rattle.std.specs.Prelude.{◌≡◌, ◌++◌, List, ℕ, IfOk, OnOk};
ghost use Rattle.std.specs.Option.{option_copied};
ghost use Rattle.service_model.specs.Labels.{labels, labels_in, before_query, closed, without_plus, label_before};

use json_doc::{OutOfMemory, Text};
use model_files::{chars_of, text_of};
use std::alloc::Global;

/// The names in the labels of a URI or host prefix, which stand before its first `?`. A brace
/// without its partner is text. A final `+`, which says that slashes stay, is no part of the name.
#[tactic(auto, unfolding(crate::specs::Labels::labels))]
pub fn labels(alloc: Global, template: &Text) -> Result<Vec<Text>, OutOfMemory>
    ensures { IfOk result (λ made. made.items ≡ labels template.now) }
{
    let chars = chars_of(alloc, template)?;
    labels_in(alloc, before_query(chars.as_slice()))
}

fn labels_in(alloc: Global, path: &[char]) -> Result<Vec<Text>, OutOfMemory>
    ensures { IfOk result (λ made. made.items ≡ labels_in path.now) }
{
    let mut names = Vec::new(alloc);
    for (at, c) in path.iter().enumerate() {
        if *c == '{' {
            push_label(alloc, &mut names, closed(&path[at + 1..]))?;
        }
    }
    Ok(names)
}

/// Puts the name in a label at the end, where there is one.
fn push_label(
    alloc: Global,
    names: &mut Vec<Text>,
    label: Option<&[char]>,
) -> Result<(), OutOfMemory>
    ensures { OnOk result ((others : List (List ℕ)) →
        names.old.items ++ label_before (option_copied label.entry) others ≡ names.new.items ++ others) }
{
    if let Some(label) = label {
        names.push(text_of(alloc, without_plus(label))?)?;
    }
    Ok(())
}

/// What stands before the first `?`.
fn before_query(chars: &[char]) -> &[char]
    ensures { result.now ≡ before_query chars.now }
{
    for (at, c) in chars.iter().enumerate() {
        if *c == '?' {
            return &chars[..at];
        }
    }
    chars
}

/// What stands before the brace that closes, where no brace opens before it.
fn closed(chars: &[char]) -> Option<&[char]>
    ensures { option_copied result ≡ closed chars.now }
{
    for (at, c) in chars.iter().enumerate() {
        match *c {
            '}' => return Some(&chars[..at]),
            '{' => return None,
            _ => {}
        }
    }
    None
}

fn without_plus(label: &[char]) -> &[char]
    ensures { result.now ≡ without_plus label.now }
{
    let Some((last, name)) = label.split_last() else {
        return label;
    };
    if *last == '+' {
        return name;
    }
    label
}
