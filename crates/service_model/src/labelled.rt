//! Which members the labels of URIs and host prefixes name.
ghost use Rattle.std.specs.Prelude.{◌≡◌, ◌||◌, ℕ, List as Seq, false, IfOk, OnOk, IfSome, IfNone, bytes_eq};
ghost use Rattle.std.specs.List.{list_any, list_all};
ghost use Rattle.std.specs.Option.{option_copied};
ghost use Rattle.service_model.specs.Operations.{fills_labels, is_labelled, are_named};

use crate::metadata::is_text;
use crate::numbering::{text_in, value_in};
use indexmap::IndexSet;
use json_doc::{Doc, OutOfMemory, Pair, Pairs, Text};
use std::alloc::Global;

/// Where labels stand, and so which members they can name.
#[derive(Clone, Copy, PartialEq, Eq)]
pub enum LabelUse {
    Uri,
    Host,
}

/// Whether each label is the wire name of a member that can stand there.
pub fn are_named(
    alloc: Global,
    labels: &[Text],
    members: Option<&Pairs<Doc>>,
    place: LabelUse,
) -> Result<bool, OutOfMemory>
    ensures { IfOk result (λ holds. holds ≡ are_named place (option_copied members.entry) labels.now) }
{
    if labels.is_empty() {
        return Ok(true);
    }
    let Some(members) = members else {
        return Ok(false);
    };
    let names = label_names(alloc, members.as_slice(), place)?;
    Ok(are_among(labels, &names))
}

/// Whether all of the texts are among the names.
fn are_among(texts: &[Text], names: &IndexSet<Text>) -> bool
    ensures { result ≡ list_all (λ text. list_any (bytes_eq text) names.now.keys) texts.now }
{
    for text in texts {
        if !names.contains(text) {
            return false;
        }
    }
    true
}

/// The wire names of the members that can stand there.
fn label_names(
    alloc: Global,
    members: &[Pair<Doc>],
    place: LabelUse,
) -> Result<IndexSet<Text>, OutOfMemory>
    ensures { IfOk result (λ names. (name : Seq ℕ) →
        list_any (bytes_eq name) names.keys ≡ list_any (is_labelled place name) members.now) }
{
    let mut names = IndexSet::new(alloc);
    for member in members {
        add_label_name(alloc, &mut names, member, place)?;
    }
    Ok(names)
}

/// Adds the wire name of a member, where it can stand there.
fn add_label_name(
    alloc: Global,
    names: &mut IndexSet<Text>,
    member: &Pair<Doc>,
    place: LabelUse,
) -> Result<(), OutOfMemory>
    ensures { OnOk result ((name : Seq ℕ) →
        list_any (bytes_eq name) names.new.keys ≡ (list_any (bytes_eq name) names.old.keys || is_labelled place name member.now)) }
{
    if let Some(name) = label_name(member, place) {
        names.insert(name.copy(alloc)?)?;
    }
    Ok(())
}

/// The wire name of a member that can stand there, where it can be read.
fn label_name(member: &Pair<Doc>, place: LabelUse) -> Option<&Text>
    ensures some { IfSome result (λ wire. (name : Seq ℕ) → is_labelled place name member.now ≡ bytes_eq name wire.now) }
    ensures none { IfNone result ((name : Seq ℕ) → is_labelled place name member.now ≡ false) }
{
    if !fills_labels(&member.value, place) {
        return None;
    }
    match value_in(&member.value, "locationName") {
        None => Some(&member.key),
        Some(Doc::Str(name)) => Some(name),
        Some(_) => None,
    }
}

fn fills_labels(member: &Doc, place: LabelUse) -> bool
    ensures { result ≡ fills_labels place member.now }
{
    match place {
        LabelUse::Uri => is_text(text_in(member, "location"), "uri"),
        LabelUse::Host => matches!(value_in(member, "hostLabel"), Some(Doc::Flag(true))),
    }
}
