//! Labels: the members that fill them, and their texts.
ghost use Rattle.std.specs.Prelude.{◌≡◌, ◌++◌, IfOk, OnOk};
ghost use Rattle.serializer.specs.Labels.{fills, fills_piece, has_label, member_text, label_text, slashes_of, path_piece, path_text, host_piece, host_text};

use json_doc::{OutOfMemory, Pair, Text};
use service_model::{Location, Member, Model, TimeForm};
use std::alloc::Global;
use typed_value::Typed;
use uri_texts::{Piece, Slashes, push_escaped};
use value_texts::{Slot, text_at, value_of};

/// Where the labels of a template stand.
#[derive(Clone, Copy, Debug, PartialEq, Eq)]
pub enum Labelled {
    Path,
    Host,
}

/// Whether a member fills a label of this name.
pub(crate) fn fills(place: Labelled, name: &Text, member: &Member) -> bool
    ensures { result ≡ fills place name.now member.now }
{
    let can = match place {
        Labelled::Path => matches!(member.location, Some(Location::Uri)),
        Labelled::Host => member.host_label,
    };
    can && member.wire == *name
}

/// Whether a member fills a label of a template.
pub(crate) fn has_label(place: Labelled, pieces: &[Piece], member: &Member) -> bool
    ensures { result ≡ has_label place pieces.now member.now }
{
    for piece in pieces {
        if piece_is_filled(place, piece, member) {
            return true;
        }
    }
    false
}

fn piece_is_filled(place: Labelled, piece: &Piece, member: &Member) -> bool
    ensures { result ≡ fills_piece place member.now piece.now }
{
    match piece {
        Piece::Plain(_) => false,
        Piece::Label(name, _) => fills(place, name, member),
    }
}

/// The text of a member in a label; nothing where it has no value.
pub(crate) fn member_text(
    alloc: Global,
    model: &Model,
    member: &Member,
    fields: &[Pair<Typed>],
) -> Result<Text, OutOfMemory>
    ensures { IfOk result (λ text. text ≡ member_text model.now.shapes fields.now member.now) }
{
    match value_of(fields, &member.name) {
        Some(value) => text_at(
            alloc,
            model,
            TimeForm::Iso8601,
            Slot::of_member(member),
            value,
        ),
        None => Ok(Text::new(alloc)),
    }
}

/// Puts the pieces of a path, with the labels filled.
pub(crate) fn push_path(
    alloc: Global,
    out: &mut Text,
    model: &Model,
    members: &[Member],
    fields: &[Pair<Typed>],
    pieces: &[Piece],
) -> Result<(), OutOfMemory>
    ensures { OnOk result (out.new ≡ out.old ++ path_text model.now.shapes members.now fields.now pieces.now) }
{
    for piece in pieces {
        push_path_piece(alloc, out, model, members, fields, piece)?;
    }
    Ok(())
}

fn push_path_piece(
    alloc: Global,
    out: &mut Text,
    model: &Model,
    members: &[Member],
    fields: &[Pair<Typed>],
    piece: &Piece,
) -> Result<(), OutOfMemory>
    ensures { OnOk result (out.new ≡ out.old ++ path_piece model.now.shapes members.now fields.now piece.now) }
{
    match piece {
        Piece::Plain(text) => out.push_str(text.as_str()),
        Piece::Label(name, is_greedy) => {
            let text = label_text(alloc, model, Labelled::Path, members, fields, name)?;
            push_escaped(alloc, out, text.as_str(), slashes_of(*is_greedy))
        }
    }
}

/// Only a greedy label keeps slashes.
fn slashes_of(is_greedy: bool) -> Slashes
    ensures { result ≡ slashes_of is_greedy }
{
    if is_greedy {
        Slashes::Kept
    } else {
        Slashes::Escaped
    }
}

/// Puts the pieces of a host prefix, with the labels filled.
pub(crate) fn push_host(
    alloc: Global,
    out: &mut Text,
    model: &Model,
    members: &[Member],
    fields: &[Pair<Typed>],
    pieces: &[Piece],
) -> Result<(), OutOfMemory>
    ensures { OnOk result (out.new ≡ out.old ++ host_text model.now.shapes members.now fields.now pieces.now) }
{
    for piece in pieces {
        push_host_piece(alloc, out, model, members, fields, piece)?;
    }
    Ok(())
}

fn push_host_piece(
    alloc: Global,
    out: &mut Text,
    model: &Model,
    members: &[Member],
    fields: &[Pair<Typed>],
    piece: &Piece,
) -> Result<(), OutOfMemory>
    ensures { OnOk result (out.new ≡ out.old ++ host_piece model.now.shapes members.now fields.now piece.now) }
{
    match piece {
        Piece::Plain(text) => out.push_str(text.as_str()),
        Piece::Label(name, _) => {
            let text = label_text(alloc, model, Labelled::Host, members, fields, name)?;
            out.push_str(text.as_str())
        }
    }
}

/// The text of a label: that of the first member that fills it.
fn label_text(
    alloc: Global,
    model: &Model,
    place: Labelled,
    members: &[Member],
    fields: &[Pair<Typed>],
    name: &Text,
) -> Result<Text, OutOfMemory>
    ensures { IfOk result (λ text. text ≡ label_text model.now.shapes place members.now fields.now name.now) }
{
    for member in members {
        if fills(place, name, member) {
            return member_text(alloc, model, member, fields);
        }
    }
    Ok(Text::new(alloc))
}
