ghost use Rattle.std.specs.Prelude.{◌≡◌, IfOk, OnOk, List as Seq, map};
ghost use Rattle.std.specs.Option.{option_map, option_copied};
ghost use Rattle.texts.specs.Keys.{keys};
ghost use Rattle.out_format.specs.Borrowed.{AreKeyed, members_of, with_text};
ghost use Rattle.out_format.specs.Layers.{layer_of, scalar_of, fields_in};
ghost use Rattle.out_format.specs.Members.{placed, all_placed, sorted, columns, member_at, cell_of, cell_at, object_cells};
ghost use Rattle.std.specs.List.{filter};
ghost use Rattle.out_format.specs.Layers.{is_scalar};
ghost use Rattle.json_doc.specs.declared.doc.Doc.{out-Doc};

use crate::cell::Cell;
use crate::layers::{fields_of, is_scalar, scalar_text};
use json_doc::{Doc, List, OutOfMemory, Pair, Text};
use std::alloc::Global;
use std::collections::BTreeMap;

/// The members of an object in the order of their keys' bytes.
pub(crate) fn sorted_members<'a>(
    alloc: Global,
    doc: &'a Doc,
) -> Result<BTreeMap<&'a str, &'a Pair<Doc>>, OutOfMemory>
    ensures keyed { IfOk result (λ members. AreKeyed members.entries) }
    ensures sorted { IfOk result (λ members. members_of members.entries ≡ sorted (fields_in (out-Doc doc.now))) }
{
    let mut members = BTreeMap::new(alloc);
    for field in fields_of(doc) {
        put(&mut members, field)?;
    }
    Ok(members)
}

/// The members of these documents that are scalars, in the order of their keys' bytes, one for each
/// key.
pub(crate) fn columns<'a>(
    alloc: Global,
    docs: &'a [Doc],
) -> Result<BTreeMap<&'a str, &'a Pair<Doc>>, OutOfMemory>
    ensures keyed { IfOk result (λ members. AreKeyed members.entries) }
    ensures keys { IfOk result (λ members. keys (members_of members.entries) ≡ columns (map layer_of docs.now)) }
{
    let mut members = BTreeMap::new(alloc);
    for doc in docs {
        put_scalars(&mut members, fields_of(doc))?;
    }
    Ok(members)
}

fn put_scalars<'a>(
    members: &mut BTreeMap<&'a str, &'a Pair<Doc>>,
    fields: &'a [Pair<Doc>],
) -> Result<(), OutOfMemory>
    requires { AreKeyed members.old.entries }
    ensures keyed { OnOk result (AreKeyed members.new.entries) }
    ensures placed { OnOk result (members_of members.new.entries
        ≡ all_placed (members_of members.old.entries) (filter (λ p. is_scalar (out-Doc p.value)) fields.now)) }
{
    for field in fields {
        if is_scalar(&field.value) {
            put(members, field)?;
        }
    }
    Ok(())
}

/// Puts a member into its place, in place of one at the same key.
fn put<'a>(
    members: &mut BTreeMap<&'a str, &'a Pair<Doc>>,
    field: &'a Pair<Doc>,
) -> Result<(), OutOfMemory>
    requires { AreKeyed members.old.entries }
    ensures keyed { OnOk result (AreKeyed members.new.entries) }
    ensures placed { OnOk result (members_of members.new.entries ≡ placed (members_of members.old.entries) field.now) }
{
    members.insert(field.key.as_str(), field)?;
    Ok(())
}

/// The cells of an object, one for each column.
pub(crate) fn object_cells<'c>(
    alloc: Global,
    columns: &BTreeMap<&'c str, &'c Pair<Doc>>,
    doc: &Doc,
) -> Result<List<Cell>, OutOfMemory>
    requires { AreKeyed columns.now.entries }
    ensures { IfOk result (λ cells. cells ≡ object_cells (keys (members_of columns.now.entries)) (layer_of doc.now)) }
{
    let members = sorted_members(alloc, doc)?;
    cells(alloc, columns, &members)
}

/// A cell for each column: the scalar at its key, or an empty one.
pub(crate) fn cells<'c, 'm>(
    alloc: Global,
    columns: &BTreeMap<&'c str, &'c Pair<Doc>>,
    members: &BTreeMap<&'m str, &'m Pair<Doc>>,
) -> Result<List<Cell>, OutOfMemory>
    requires columns { AreKeyed columns.now.entries }
    requires members { AreKeyed members.now.entries }
    ensures { IfOk result (λ cells. cells
        ≡ map (cell_at (map with_text (members_of members.now.entries))) (keys (members_of columns.now.entries))) }
{
    let mut cells = List::new(alloc);
    for (_, column) in columns {
        cells.push(cell(alloc, member(members, &column.key))?)?;
    }
    Ok(cells)
}

fn member<'a>(members: &BTreeMap<&'a str, &'a Pair<Doc>>, key: &Text) -> Option<&'a Pair<Doc>>
    requires { AreKeyed members.now.entries }
    ensures { option_map (λ p. p.now.value) result ≡ member_at key.now (members_of members.now.entries) }
{
    match members.get(key.as_str()) {
        Some(member) => Some(*member),
        None => None,
    }
}

fn cell(alloc: Global, member: Option<&Pair<Doc>>) -> Result<Cell, OutOfMemory>
    ensures { IfOk result (λ cell. cell ≡ cell_of (option_map (λ p. scalar_of p.now.value) member.entry)) }
{
    let Some(pair) = member else {
        return Ok(Cell::Empty);
    };
    match scalar_text(alloc, &pair.value)? {
        Some(text) => Ok(Cell::Value(text)),
        None => Ok(Cell::Empty),
    }
}
