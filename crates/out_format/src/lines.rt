ghost use Rattle.std.specs.Prelude.{◌≡◌, ◌++◌, ◌∷◌, [], OnOk, IfOk, None, Some, map};
ghost use Rattle.std.specs.Option.{option_map, option_to_list};
ghost use Rattle.std.specs.List.{flat_map};
ghost use Rattle.texts.specs.Keys.{keys};
ghost use Rattle.texts.specs.Joined.{joined};
ghost use Rattle.out_format.specs.Borrowed.{AreKeyed, members_of, with_text};
ghost use Rattle.out_format.specs.Cells.{cell_text};
ghost use Rattle.out_format.specs.Layers.{layer_of, scalar_of};
ghost use Rattle.out_format.specs.Members.{cell_at};
ghost use Rattle.out_format.specs.Text.{upper, behind_key, scalars_lines, texts_of, line_text, lines_text, line_of};
ghost use Rattle.out_format.specs.declared.cell.Cell.TheVariants.{Value};

use crate::cell::Cell;
use crate::layers::scalar_text;
use crate::members::cells;
use json_doc::{Doc, List, OutOfMemory, Pair, Text};
use std::alloc::Global;
use std::collections::BTreeMap;
use std::slice;

/// Writes the line of an object, with a cell for each column; no line where there is no column.
pub(crate) fn write_object_line<'c, 'm>(
    alloc: Global,
    out: &mut Text,
    id: Option<&Text>,
    columns: &BTreeMap<&'c str, &'c Pair<Doc>>,
    members: &BTreeMap<&'m str, &'m Pair<Doc>>,
) -> Result<(), OutOfMemory>
    requires columns { AreKeyed columns.now.entries }
    requires members { AreKeyed members.now.entries }
    ensures { OnOk result (out.new ≡ out.old ++ lines_text (line_of (option_map (λ key. key.now) id.entry)
        (map (cell_at (map with_text (members_of members.now.entries))) (keys (members_of columns.now.entries))))) }
{
    let cells = cells(alloc, columns, members)?;
    if cells.is_empty() {
        return Ok(());
    }
    write_line(out, id, cells.as_slice())
}

/// Writes the scalars of a list: a line for each behind the key where there is one, else all on one
/// line.
pub(crate) fn write_scalars(
    alloc: Global,
    out: &mut Text,
    docs: &[Doc],
    id: Option<&Text>,
) -> Result<(), OutOfMemory>
    ensures { OnOk result (out.new ≡ out.old
        ++ lines_text (scalars_lines (option_map (λ key. key.now) id.entry) (texts_of (map layer_of docs.now)))) }
{
    let values = values(alloc, docs)?;
    match id {
        Some(key) => write_each(out, key, values.as_slice()),
        None => write_together(out, values.as_slice()),
    }
}

/// Writes a line for each cell.
fn write_each(out: &mut Text, key: &Text, cells: &[Cell]) -> Result<(), OutOfMemory>
    ensures { OnOk result (out.new ≡ out.old
        ++ flat_map (λ cell. line_text (behind_key (Some key.now) (cell ∷ []))) cells.now) }
{
    for cell in cells {
        write_line(out, Some(key), slice::from_ref(cell))?;
    }
    Ok(())
}

/// Writes a line of all cells, where there is one.
fn write_together(out: &mut Text, cells: &[Cell]) -> Result<(), OutOfMemory>
    ensures { OnOk result (out.new ≡ out.old ++ lines_text (line_of None cells.now)) }
{
    if cells.is_empty() {
        return Ok(());
    }
    write_line(out, None, cells)
}

/// A cell for each scalar among these documents.
pub(crate) fn values(alloc: Global, docs: &[Doc]) -> Result<List<Cell>, OutOfMemory>
    ensures { IfOk result (λ cells. cells ≡ map Value (texts_of (map layer_of docs.now))) }
{
    let mut values = List::new(alloc);
    for doc in docs {
        put_value(&mut values, scalar_text(alloc, doc)?)?;
    }
    Ok(values)
}

fn put_value(values: &mut List<Cell>, text: Option<Text>) -> Result<(), OutOfMemory>
    ensures { OnOk result (values.new ≡ values.old ++ map Value (option_to_list text)) }
{
    match text {
        Some(text) => values.push(Cell::Value(text)),
        None => Ok(()),
    }
}

/// Writes the cells with a tab between each two, behind the key in upper case where there is one,
/// and a line end.
fn write_line(out: &mut Text, id: Option<&Text>, cells: &[Cell]) -> Result<(), OutOfMemory>
    ensures { OnOk result (out.new ≡ out.old ++ line_text (behind_key (option_map (λ key. key.now) id.entry) cells.now)) }
{
    match id {
        Some(key) => {
            write_upper(out, key)?;
            write_behind_tabs(out, cells)?;
        }
        None => write_cells(out, cells)?,
    }
    out.push('\n')
}

fn write_cells(out: &mut Text, cells: &[Cell]) -> Result<(), OutOfMemory>
    ensures { OnOk result (out.new ≡ out.old ++ joined (9 ∷ []) (map cell_text cells.now)) }
{
    let Some((first, others)) = cells.split_first() else {
        return Ok(());
    };
    out.push_str(first.as_str())?;
    write_behind_tabs(out, others)
}

fn write_behind_tabs(out: &mut Text, cells: &[Cell]) -> Result<(), OutOfMemory>
    ensures { OnOk result (out.new ≡ out.old ++ flat_map (λ text. 9 ∷ text) (map cell_text cells.now)) }
{
    for cell in cells {
        out.push('\t')?;
        out.push_str(cell.as_str())?;
    }
    Ok(())
}

/// Writes a text with its ASCII letters in upper case.
fn write_upper(out: &mut Text, text: &Text) -> Result<(), OutOfMemory>
    ensures { OnOk result (out.new ≡ out.old ++ upper text.now) }
{
    for c in text.as_str().chars() {
        out.push(c.to_ascii_uppercase())?;
    }
    Ok(())
}
