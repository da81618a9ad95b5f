ghost use Rattle.std.specs.Prelude.{◌≡◌, ◌++◌, IfOk, OnOk, List as Seq, map, filter};
ghost use Rattle.std.specs.List.{list_any};
ghost use Rattle.texts.specs.Keys.{keys};
ghost use Rattle.json_doc.specs.declared.doc.Doc.{out-Doc};
ghost use Rattle.out_format.specs.Borrowed.{AreKeyed, members_of};
ghost use Rattle.out_format.specs.Layers.{layer_of, is_object};
ghost use Rattle.out_format.specs.Members.{object_cells};
ghost use Rattle.out_format.specs.Sections.{sections_text};
ghost use Rattle.out_format.specs.Table.{objects_sections, rows_sections, is_row, row_cells, has_cell};
ghost use Rattle.out_format.specs.declared.cell.Cell.TheVariants.{Key};

use crate::cell::Cell;
use crate::layers::{are_scalars, is_object, is_scalar, items_of};
use crate::lines::values;
use crate::members::{columns, object_cells};
use crate::section::{Section, write_section};
use json_doc::{Doc, List, OutOfMemory, Pair, Text};
use std::alloc::Global;
use std::collections::BTreeMap;
use std::slice;

/// Writes the section of the objects among these, where some key is scalar in one of them.
pub(crate) fn write_objects(
    alloc: Global,
    out: &mut Text,
    path: &Text,
    docs: &[Doc],
) -> Result<(), OutOfMemory>
    ensures { OnOk result (out.new ≡ out.old ++ sections_text (objects_sections path.now (map layer_of docs.now))) }
{
    let columns = columns(alloc, docs)?;
    let header = header(alloc, &columns)?;
    if header.is_empty() {
        return Ok(());
    }
    let section = Section {
        path: path.copy(alloc)?,
        header: Some(header),
        rows: object_rows(alloc, &columns, docs)?,
    };
    write_section(alloc, out, &section)
}

fn header<'c>(
    alloc: Global,
    columns: &BTreeMap<&'c str, &'c Pair<Doc>>,
) -> Result<List<Cell>, OutOfMemory>
    ensures { IfOk result (λ made. made ≡ map Key (keys (members_of columns.now.entries))) }
{
    let mut made = List::new(alloc);
    for (_, column) in columns {
        made.push(Cell::Key(column.key.copy(alloc)?))?;
    }
    Ok(made)
}

/// A row for each object among these.
fn object_rows<'c>(
    alloc: Global,
    columns: &BTreeMap<&'c str, &'c Pair<Doc>>,
    docs: &[Doc],
) -> Result<List<List<Cell>>, OutOfMemory>
    requires { AreKeyed columns.now.entries }
    ensures { IfOk result (λ rows. rows
        ≡ map (object_cells (keys (members_of columns.now.entries))) (filter is_object (map layer_of docs.now))) }
{
    let mut rows = List::new(alloc);
    for doc in docs {
        if is_object(doc) {
            rows.push(object_cells(alloc, columns, doc)?)?;
        }
    }
    Ok(rows)
}

/// Writes the section of the scalars and the lists of scalars among these, where one has a cell.
pub(crate) fn write_rows(
    alloc: Global,
    out: &mut Text,
    path: &Text,
    docs: &[Doc],
) -> Result<(), OutOfMemory>
    ensures { OnOk result (out.new ≡ out.old ++ sections_text (rows_sections path.now (map layer_of docs.now))) }
{
    let rows = rows(alloc, docs)?;
    if !has_cells(rows.as_slice()) {
        return Ok(());
    }
    let section = Section {
        path: path.copy(alloc)?,
        header: None,
        rows,
    };
    write_section(alloc, out, &section)
}

fn has_cells(rows: &[List<Cell>]) -> bool
    ensures { result ≡ list_any has_cell rows.now }
{
    for row in rows {
        if !row.is_empty() {
            return true;
        }
    }
    false
}

fn rows(alloc: Global, docs: &[Doc]) -> Result<List<List<Cell>>, OutOfMemory>
    ensures { IfOk result (λ made. made ≡ map row_cells (filter is_row (map layer_of docs.now))) }
{
    let mut made = List::new(alloc);
    for doc in docs {
        if is_row(doc) {
            made.push(row(alloc, doc)?)?;
        }
    }
    Ok(made)
}

/// Whether this is a scalar or a list of scalars.
pub(crate) fn is_row(doc: &Doc) -> bool
    ensures { result ≡ is_row (layer_of doc.now) }
{
    if is_object(doc) {
        return false;
    }
    are_scalars(items_of(doc))
}

/// The cells of a scalar or of a list of scalars.
fn row(alloc: Global, doc: &Doc) -> Result<List<Cell>, OutOfMemory>
    ensures { IfOk result (λ cells. cells ≡ row_cells (layer_of doc.now)) }
{
    if is_scalar(doc) {
        return values(alloc, slice::from_ref(doc));
    }
    values(alloc, items_of(doc))
}
