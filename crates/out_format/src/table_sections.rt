ghost use Rattle.std.specs.Prelude.{◌≡◌, ◌++◌, OnOk, map};
ghost use Rattle.out_format.specs.Sections.{sections_text};
ghost use Rattle.out_format.specs.Table.{part_of, list_sections, numbered, entry_at, entry_sections, nested_sections};

use crate::layers::{has_object, is_object, is_scalar, items_of};
use crate::members::sorted_members;
use crate::paths::{item_path, member_path};
use crate::table_rows::{is_row, write_objects, write_rows};
use json_doc::{Doc, OutOfMemory, Text};
use std::alloc::Global;
use std::slice;

/// Writes the sections of a value at a path.
#[cycle(sections)]
pub(crate) fn write_sections(
    alloc: Global,
    out: &mut Text,
    path: &Text,
    doc: &Doc,
) -> Result<(), OutOfMemory>
    ensures { OnOk result (out.new ≡ out.old ++ sections_text ((part_of doc.now).whole path.now)) }
{
    if is_scalar(doc) {
        return write_rows(alloc, out, path, slice::from_ref(doc));
    }
    if is_object(doc) {
        write_objects(alloc, out, path, slice::from_ref(doc))?;
        return write_members(alloc, out, path, doc);
    }
    write_items(alloc, out, path, items_of(doc))
}

/// Writes the sections of a list.
#[cycle(sections)]
fn write_items(alloc: Global, out: &mut Text, path: &Text, items: &[Doc]) -> Result<(), OutOfMemory>
    ensures { OnOk result (out.new ≡ out.old ++ sections_text (list_sections path.now (map part_of items.now))) }
{
    if has_object(items) {
        write_objects(alloc, out, path, items)?;
        return write_entries(alloc, out, path, items);
    }
    write_rows(alloc, out, path, items)?;
    write_nested(alloc, out, path, items)
}

/// Writes what the section of a list with an object leaves out.
#[cycle(sections)]
fn write_entries(
    alloc: Global,
    out: &mut Text,
    path: &Text,
    items: &[Doc],
) -> Result<(), OutOfMemory>
    ensures { OnOk result (out.new ≡ out.old ++ sections_text (numbered (entry_sections path.now) 0 (map part_of items.now))) }
{
    for (place, item) in items.iter().enumerate() {
        let inner = item_path(alloc, path, place)?;
        write_entry(alloc, out, &inner, item)?;
    }
    Ok(())
}

#[cycle(sections)]
fn write_entry(alloc: Global, out: &mut Text, path: &Text, item: &Doc) -> Result<(), OutOfMemory>
    ensures { OnOk result (out.new ≡ out.old ++ sections_text (entry_at path.now (part_of item.now))) }
{
    if is_object(item) {
        return write_members(alloc, out, path, item);
    }
    write_sections(alloc, out, path, item)
}

/// Writes what the section of another list leaves out.
#[cycle(sections)]
fn write_nested(
    alloc: Global,
    out: &mut Text,
    path: &Text,
    items: &[Doc],
) -> Result<(), OutOfMemory>
    ensures { OnOk result (out.new ≡ out.old ++ sections_text (numbered (nested_sections path.now) 0 (map part_of items.now))) }
{
    for (place, item) in items.iter().enumerate() {
        if !is_row(item) {
            let inner = item_path(alloc, path, place)?;
            write_sections(alloc, out, &inner, item)?;
        }
    }
    Ok(())
}

/// Writes the members of an object that are no scalars.
#[cycle(sections)]
fn write_members(alloc: Global, out: &mut Text, path: &Text, doc: &Doc) -> Result<(), OutOfMemory>
    ensures { OnOk result (out.new ≡ out.old ++ sections_text ((part_of doc.now).inner path.now)) }
{
    let members = sorted_members(alloc, doc)?;
    for (_, member) in &members {
        if !is_scalar(&member.value) {
            let inner = member_path(alloc, path, &member.key)?;
            write_sections(alloc, out, &inner, &member.value)?;
        }
    }
    Ok(())
}
