ghost use Rattle.std.specs.Prelude.{◌≡◌, ◌++◌, ◌+◌, ◌∷◌, [], IfOk, OnOk, List as Seq, ℕ, length, map, replicate, option_to_list, unwrap_or};
ghost use Rattle.std.specs.Option.{option_map};
ghost use Rattle.out_format.specs.Sections.{shown, width_at, column_width, column_count, widths as column_widths, border, filled, cells_in, row_text, rows_text, head_text, shown_rows, section_text};

use crate::cell::Cell;
use crate::shown_cell::ShownCell;
use json_doc::{List, OutOfMemory, Text};
use std::alloc::Global;

/// A part of a table: the path of what it shows, perhaps the keys of its columns, and its rows. A
/// row that is shorter than others ends in empty cells.
#[derive(Debug, Drop)]
pub struct Section {
    pub path: Text,
    pub header: Option<List<Cell>>,
    pub rows: List<List<Cell>>,
}

/// Writes a section: its path, a border, the header and a border where it has one, the rows, a
/// border.
pub(crate) fn write_section(
    alloc: Global,
    out: &mut Text,
    section: &Section,
) -> Result<(), OutOfMemory>
    ensures { OnOk result (out.new ≡ out.old ++ section_text section.now) }
{
    let head = shown_header(alloc, &section.header)?;
    let count = head.len();
    let lines = with_rows(alloc, head, section.rows.as_slice())?;
    let widths = widths(alloc, lines.as_slice())?;
    let (head, rows) = lines.as_slice().split_at(count);
    out.push_str(section.path.as_str())?;
    out.push('\n')?;
    write_border(out, widths.as_slice())?;
    write_head(out, widths.as_slice(), head)?;
    write_rows(out, widths.as_slice(), rows)?;
    write_border(out, widths.as_slice())
}

/// The header as the only row, or no row.
fn shown_header(
    alloc: Global,
    header: &Option<List<Cell>>,
) -> Result<List<List<ShownCell>>, OutOfMemory>
    ensures { IfOk result (λ rows. rows ≡ shown_rows (option_to_list header.now)) }
{
    let mut rows = List::new(alloc);
    match header {
        Some(row) => rows.push(shown_row(alloc, row.as_slice())?)?,
        None => {}
    }
    Ok(rows)
}

/// Rows with more behind them.
fn with_rows(
    alloc: Global,
    lines: List<List<ShownCell>>,
    rows: &[List<Cell>],
) -> Result<List<List<ShownCell>>, OutOfMemory>
    ensures { IfOk result (λ all. all ≡ lines ++ shown_rows rows.now) }
{
    let mut all = lines;
    for row in rows {
        all.push(shown_row(alloc, row.as_slice())?)?;
    }
    Ok(all)
}

fn shown_row(alloc: Global, row: &[Cell]) -> Result<List<ShownCell>, OutOfMemory>
    ensures { IfOk result (λ made. made ≡ map shown row.now) }
{
    let mut made = List::new(alloc);
    for cell in row {
        made.push(ShownCell::of(alloc, cell)?)?;
    }
    Ok(made)
}

/// The width of each column.
fn widths(alloc: Global, rows: &[List<ShownCell>]) -> Result<List<usize>, OutOfMemory>
    ensures { IfOk result (λ made. made ≡ column_widths rows.now) }
{
    let mut made = List::new(alloc);
    for column in 0..column_count(rows) {
        made.push(column_width(rows, column))?;
    }
    Ok(made)
}

fn column_count(rows: &[List<ShownCell>]) -> usize
    ensures { result ≡ column_count rows.now }
{
    let mut most = 0;
    for row in rows {
        most = row.len().max(most);
    }
    most
}

/// The greatest width of a column's cells.
fn column_width(rows: &[List<ShownCell>], column: usize) -> usize
    ensures { result ≡ column_width rows.now column }
{
    let mut most = 0;
    for row in rows {
        most = width_at(row, column).max(most);
    }
    most
}

fn width_at(row: &List<ShownCell>, column: usize) -> usize
    ensures { result ≡ width_at column row.now }
{
    match row.get(column) {
        Some(cell) => cell.width(),
        None => 0,
    }
}

fn write_border(out: &mut Text, widths: &[usize]) -> Result<(), OutOfMemory>
    ensures { OnOk result (out.new ≡ out.old ++ border widths.now) }
{
    out.push('+')?;
    for width in widths {
        write_times(out, '-', *width)?;
        out.push_ascii("--+")?;
    }
    out.push('\n')
}

/// Writes the header, where there is one, and a border below it.
fn write_head(out: &mut Text, widths: &[usize], head: &[List<ShownCell>]) -> Result<(), OutOfMemory>
    ensures { OnOk result (out.new ≡ out.old ++ head_text widths.now head.now) }
{
    if head.is_empty() {
        return Ok(());
    }
    write_rows(out, widths, head)?;
    write_border(out, widths)
}

fn write_rows(out: &mut Text, widths: &[usize], rows: &[List<ShownCell>]) -> Result<(), OutOfMemory>
    ensures { OnOk result (out.new ≡ out.old ++ rows_text widths.now rows.now) }
{
    for row in rows {
        write_row(out, widths, row)?;
    }
    Ok(())
}

fn write_row(out: &mut Text, widths: &[usize], row: &List<ShownCell>) -> Result<(), OutOfMemory>
    ensures { OnOk result (out.new ≡ out.old ++ row_text widths.now row.now) }
{
    out.push('|')?;
    for (column, width) in widths.iter().enumerate() {
        out.push(' ')?;
        write_cell(out, *width, row.get(column))?;
        out.push_ascii(" |")?;
    }
    out.push('\n')
}

/// Writes a cell and fills it up with blanks; where there is none, blanks alone.
fn write_cell(out: &mut Text, width: usize, cell: Option<&ShownCell>) -> Result<(), OutOfMemory>
    ensures { OnOk result (out.new ≡ out.old ++ filled width (unwrap_or (option_map (λ text. text.now) cell.entry) [])) }
{
    match cell {
        Some(shown) => {
            out.push_str(shown.as_str())?;
            write_times(out, ' ', width.saturating_sub(shown.width()))
        }
        None => write_times(out, ' ', width),
    }
}

fn write_times(out: &mut Text, c: char, count: usize) -> Result<(), OutOfMemory>
    ensures { OnOk result (out.new ≡ out.old ++ replicate count c) }
{
    for _step in 0..count {
        out.push(c)?;
    }
    Ok(())
}
