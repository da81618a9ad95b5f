ghost use Rattle.std.specs.Prelude.{◌≡◌, ◌++◌, OnOk, map};
ghost use Rattle.std.specs.Option.{option_map};
ghost use Rattle.std.specs.List.{flat_map};
ghost use Rattle.texts.specs.Keys.{keys};
ghost use Rattle.out_format.specs.Borrowed.{AreKeyed, members_of};
ghost use Rattle.out_format.specs.Layers.{layer_of};
ghost use Rattle.out_format.specs.Members as members;
ghost use Rattle.out_format.specs.Text.{part_of, entry_lines, object_lines, list_lines, lines_text};

use crate::layers::{has_object, is_object, is_scalar, items_of};
use crate::lines::{write_object_line, write_scalars};
use crate::members::{columns, sorted_members};
use json_doc::{Doc, OutOfMemory, Pair, Text};
use std::alloc::Global;
use std::collections::BTreeMap;
use std::slice;

/// Writes the lines of a value, given the key of the member in which it stands where there is one.
#[cycle(lines)]
pub(crate) fn write_lines(
    alloc: Global,
    out: &mut Text,
    doc: &Doc,
    id: Option<&Text>,
) -> Result<(), OutOfMemory>
    ensures { OnOk result (out.new ≡ out.old ++ lines_text ((part_of doc.now).whole (option_map (λ key. key.now) id.entry))) }
{
    if is_scalar(doc) {
        return write_scalars(alloc, out, slice::from_ref(doc), None);
    }
    if is_object(doc) {
        let columns = columns(alloc, slice::from_ref(doc))?;
        return write_object(alloc, out, doc, id, &columns);
    }
    write_items(alloc, out, items_of(doc), id)
}

/// Writes the items of a list.
#[cycle(lines)]
fn write_items(
    alloc: Global,
    out: &mut Text,
    items: &[Doc],
    id: Option<&Text>,
) -> Result<(), OutOfMemory>
    ensures { OnOk result (out.new ≡ out.old ++ lines_text (list_lines (option_map (λ key. key.now) id.entry) (map part_of items.now))) }
{
    if has_object(items) {
        return write_entries(alloc, out, items, id);
    }
    write_scalars(alloc, out, items, id)?;
    for item in items {
        if !is_scalar(item) {
            write_lines(alloc, out, item, id)?;
        }
    }
    Ok(())
}

/// Writes the items of a list with an object.
#[cycle(lines)]
fn write_entries(
    alloc: Global,
    out: &mut Text,
    items: &[Doc],
    id: Option<&Text>,
) -> Result<(), OutOfMemory>
    ensures { OnOk result (out.new ≡ out.old ++ lines_text (flat_map
        (entry_lines (option_map (λ key. key.now) id.entry) (members.columns (map layer_of items.now))) (map part_of items.now))) }
{
    let columns = columns(alloc, items)?;
    for item in items {
        write_entry(alloc, out, item, id, &columns)?;
    }
    Ok(())
}

/// Writes an item of a list with an object.
#[cycle(lines)]
fn write_entry<'a>(
    alloc: Global,
    out: &mut Text,
    item: &Doc,
    id: Option<&Text>,
    columns: &BTreeMap<&'a str, &'a Pair<Doc>>,
) -> Result<(), OutOfMemory>
    requires { AreKeyed columns.now.entries }
    ensures { OnOk result (out.new ≡ out.old ++ lines_text
        (entry_lines (option_map (λ key. key.now) id.entry) (keys (members_of columns.now.entries)) (part_of item.now))) }
{
    if is_object(item) {
        return write_object(alloc, out, item, id, columns);
    }
    write_lines(alloc, out, item, id)
}

/// Writes an object: a line with a cell for each column, then its members that are no scalars.
#[cycle(lines)]
fn write_object<'a>(
    alloc: Global,
    out: &mut Text,
    doc: &Doc,
    id: Option<&Text>,
    columns: &BTreeMap<&'a str, &'a Pair<Doc>>,
) -> Result<(), OutOfMemory>
    requires { AreKeyed columns.now.entries }
    ensures { OnOk result (out.new ≡ out.old ++ lines_text
        (object_lines (option_map (λ key. key.now) id.entry) (keys (members_of columns.now.entries)) (layer_of doc.now) ++ (part_of doc.now).inner)) }
{
    let members = sorted_members(alloc, doc)?;
    write_object_line(alloc, out, id, columns, &members)?;
    for (_, member) in &members {
        if !is_scalar(&member.value) {
            write_lines(alloc, out, &member.value, Some(&member.key))?;
        }
    }
    Ok(())
}
