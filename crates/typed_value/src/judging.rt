//! All faults of a value at a shape, by its table.
ghost use Rattle.std.specs.Prelude.{◌≡◌, ◌<◌, ◌++◌, ◌∷◌, [], length, map, IfOk, IfSome, OnOk};
ghost use Rattle.std.specs.List.{flat_map};
ghost use Rattle.service_model.specs.Kept.{IsWithin};
ghost use Rattle.service_model.specs.Shapes.{names_in};
ghost use Rattle.texts.specs.Keys.{IsDistinct};
ghost use Rattle.typed_value.specs.declared.typed.Typed.{Typed as Value, out-Typed, map-Typed};
ghost use Rattle.typed_value.specs.Faults.{Judge, short_faults, small_faults, item_faults, items_faults, union_faults, missing_faults, unknown_faults, member_faults, fields_faults, inside_faults, faults_where, faults_of};
ghost use Rattle.typed_value.specs.Fits.{with_values};
ghost use Rattle.typed_value.specs.Paths.{below, shown};
ghost use Rattle.typed_value.specs.Places.{IsComplete, member_named};
ghost use Rattle.typed_value.specs.Tables.{AreNodes, IsTable, parts_in, root_of};

use crate::finding::{find_key, find_member};
use crate::fitting::has_one;
use crate::kinds::{is_enough, is_long_enough, is_map, takes};
use crate::node::{Node, table_at};
use crate::paths::{below, item_path, shown};
use crate::sizes::characters;
use crate::wanted::Wanted;
use crate::{Flat, Typed, ValueFault};
use json_doc::{List, OutOfMemory, Pair, Text};
use service_model::{Model, Shape, ShapeId};
use std::alloc::Global;

/// All faults of the value at the shape, in their order: of a structure first the union, then members
/// that are missing, members that it doesn't have, and each of its members in full.
pub fn validate_flat(
    alloc: Global,
    model: &Model,
    shape: ShapeId,
    flat: &Flat,
) -> Result<List<ValueFault>, OutOfMemory>
    requires { shape.0 < length model.now.shapes }
    ensures { IfOk result (λ faults. faults ≡ faults_of model.now.shapes shape flat.now) }
{
    let mut faults = List::new(alloc);
    let path = Text::new(alloc);
    judge(
        alloc,
        &mut faults,
        model,
        Wanted::of_shape(shape),
        &path,
        flat.nodes(),
    )?;
    Ok(faults)
}

/// A shape with its number.
#[derive(Clone, Copy)]
struct Numbered<'m> {
    id: ShapeId,
    shape: &'m Shape,
}

/// Puts the faults of a value at a path behind those that are there.
#[cycle(judging)]
fn judge(
    alloc: Global,
    faults: &mut List<ValueFault>,
    model: &Model,
    wanted: Wanted,
    path: &Text,
    nodes: &[Node],
) -> Result<(), OutOfMemory>
    requires known { wanted.shape.0 < length model.now.shapes }
    requires table { IsTable nodes.now }
    ensures { OnOk result (faults.new ≡ faults.old ++ faults_where model.now.shapes (root_of nodes.now) wanted path.now) }
{
    let Some((node, parts)) = nodes.split_first() else {
        return Ok(());
    };
    let id = wanted.shape;
    let shape = model.shape(id);
    if takes(wanted.is_json, shape, node.value) {
        let numbered = Numbered { id, shape };
        return judge_inside(alloc, faults, model, &numbered, path, node.value, parts);
    }
    faults.push(ValueFault::WrongType(shown(alloc, path)?, shape.kind))
}

/// The size and the parts of a value of the right kind.
#[cycle(judging)]
fn judge_inside(
    alloc: Global,
    faults: &mut List<ValueFault>,
    model: &Model,
    numbered: &Numbered,
    path: &Text,
    value: &Typed,
    parts: &[Node],
) -> Result<(), OutOfMemory>
    requires kept { IsComplete model.now.shapes numbered.now.shape.now }
    requires nodes { AreNodes parts.now (parts_in (out-Typed value.now)) }
    ensures { OnOk result (faults.new ≡ faults.old ++ inside_faults numbered.now.id numbered.now.shape.now path.now
        (map-Typed Value Judge (faults_where model.now.shapes) (out-Typed value.now))) }
{
    let shape = numbered.shape;
    match value {
        Typed::Text(text) => judge_size(alloc, faults, path, shape.min, characters(text)),
        Typed::Int(n) => judge_number(alloc, faults, path, shape.min, *n),
        Typed::Items(items) => {
            judge_size(alloc, faults, path, shape.min, items.len() as u64)?;
            judge_items(
                alloc,
                faults,
                model,
                shape.item,
                path,
                items.as_slice(),
                parts,
            )
        }
        Typed::Fields(fields) => {
            judge_fields(
                alloc,
                faults,
                model,
                numbered,
                path,
                fields.as_slice(),
                parts,
            )
        }
        _ => Ok(()),
    }
}

fn judge_size(
    alloc: Global,
    faults: &mut List<ValueFault>,
    path: &Text,
    least: Option<i64>,
    count: u64,
) -> Result<(), OutOfMemory>
    ensures { OnOk result (faults.new ≡ faults.old ++ short_faults least path.now count) }
{
    let Some(least) = least else {
        return Ok(());
    };
    if is_long_enough(Some(least), count) {
        return Ok(());
    }
    faults.push(ValueFault::Short(shown(alloc, path)?, count, least))
}

fn judge_number(
    alloc: Global,
    faults: &mut List<ValueFault>,
    path: &Text,
    least: Option<i64>,
    number: i64,
) -> Result<(), OutOfMemory>
    ensures { OnOk result (faults.new ≡ faults.old ++ small_faults least path.now number) }
{
    let Some(least) = least else {
        return Ok(());
    };
    if is_enough(Some(least), number) {
        return Ok(());
    }
    faults.push(ValueFault::Small(shown(alloc, path)?, number, least))
}

#[cycle(judging)]
fn judge_items(
    alloc: Global,
    faults: &mut List<ValueFault>,
    model: &Model,
    item: Option<ShapeId>,
    path: &Text,
    items: &[Typed],
    parts: &[Node],
) -> Result<(), OutOfMemory>
    requires item { IfSome item (IsWithin model.now.shapes) }
    requires nodes { AreNodes parts.now items.now }
    ensures { OnOk result (faults.new ≡ faults.old ++ items_faults item path.now 0 (map (faults_where model.now.shapes) items.now)) }
{
    let Some(item) = item else {
        return Ok(());
    };
    let wanted = Wanted::of_shape(item);
    let mut start = 0;
    for index in 0..items.len() {
        let own = table_at(parts, start);
        let inside = item_path(alloc, path, index)?;
        judge(alloc, faults, model, wanted, &inside, own)?;
        start += own.len();
    }
    Ok(())
}

/// The values of a map.
#[cycle(judging)]
fn judge_entries(
    alloc: Global,
    faults: &mut List<ValueFault>,
    model: &Model,
    item: Option<ShapeId>,
    path: &Text,
    fields: &[Pair<Typed>],
    parts: &[Node],
) -> Result<(), OutOfMemory>
    requires item { IfSome item (IsWithin model.now.shapes) }
    requires nodes { AreNodes parts.now (map (λ p. p.value) fields.now) }
    ensures { OnOk result (faults.new ≡ faults.old
        ++ flat_map (λ p. item_faults item (below path.now p.key) (faults_where model.now.shapes p.value)) fields.now) }
{
    let Some(item) = item else {
        return Ok(());
    };
    let wanted = Wanted::of_shape(item);
    let mut start = 0;
    for field in fields {
        let own = table_at(parts, start);
        let inside = below(alloc, path, &field.key)?;
        judge(alloc, faults, model, wanted, &inside, own)?;
        start += own.len();
    }
    Ok(())
}

/// The values of a map, or the members of a structure.
#[cycle(judging)]
fn judge_fields(
    alloc: Global,
    faults: &mut List<ValueFault>,
    model: &Model,
    numbered: &Numbered,
    path: &Text,
    fields: &[Pair<Typed>],
    parts: &[Node],
) -> Result<(), OutOfMemory>
    requires kept { IsComplete model.now.shapes numbered.now.shape.now }
    requires nodes { AreNodes parts.now (map (λ p. p.value) fields.now) }
    ensures { OnOk result (faults.new ≡ faults.old ++ fields_faults numbered.now.id numbered.now.shape.now path.now
        (with_values (faults_where model.now.shapes) fields.now)) }
{
    let shape = numbered.shape;
    if is_map(shape.kind) {
        return judge_entries(alloc, faults, model, shape.item, path, fields, parts);
    }
    judge_union(alloc, faults, shape, path, fields.len())?;
    judge_required(alloc, faults, shape, path, fields)?;
    judge_names(alloc, faults, numbered, path, fields)?;
    judge_members(alloc, faults, model, shape, path, fields, parts)
}

fn judge_union(
    alloc: Global,
    faults: &mut List<ValueFault>,
    shape: &Shape,
    path: &Text,
    count: usize,
) -> Result<(), OutOfMemory>
    ensures { OnOk result (faults.new ≡ faults.old ++ union_faults shape.now path.now count) }
{
    if has_one(shape, count) {
        return Ok(());
    }
    faults.push(ValueFault::Union(shown(alloc, path)?))
}

/// The members that must be there and aren't.
fn judge_required(
    alloc: Global,
    faults: &mut List<ValueFault>,
    shape: &Shape,
    path: &Text,
    fields: &[Pair<Typed>],
) -> Result<(), OutOfMemory>
    ensures { OnOk result (faults.new ≡ faults.old ++ flat_map (missing_faults path.now fields.now) shape.now.required) }
{
    let mut next = 0;
    for name in shape.required.as_slice() {
        match find_key(fields, next, name) {
            Some(after) => next = after,
            None => faults.push(ValueFault::Missing(shown(alloc, path)?, name.copy(alloc)?))?,
        }
    }
    Ok(())
}

/// The entries that are no members of the structure.
fn judge_names(
    alloc: Global,
    faults: &mut List<ValueFault>,
    numbered: &Numbered,
    path: &Text,
    fields: &[Pair<Typed>],
) -> Result<(), OutOfMemory>
    requires { IsDistinct (names_in numbered.now.shape.now.members) }
    ensures { OnOk result (faults.new ≡ faults.old
        ++ flat_map (λ p. unknown_faults numbered.now.id path.now p.key (member_named p.key numbered.now.shape.now.members)) fields.now) }
{
    let members = numbered.shape.members.as_slice();
    let mut next = 0;
    for field in fields {
        match find_member(members, next, &field.key) {
            Some((_, after)) => next = after,
            None => {
                let name = field.key.copy(alloc)?;
                faults.push(ValueFault::Unknown(shown(alloc, path)?, name, numbered.id))?;
            }
        }
    }
    Ok(())
}

/// The entries that are members of the structure.
#[cycle(judging)]
fn judge_members(
    alloc: Global,
    faults: &mut List<ValueFault>,
    model: &Model,
    shape: &Shape,
    path: &Text,
    fields: &[Pair<Typed>],
    parts: &[Node],
) -> Result<(), OutOfMemory>
    requires kept { IsComplete model.now.shapes shape.now }
    requires nodes { AreNodes parts.now (map (λ p. p.value) fields.now) }
    ensures { OnOk result (faults.new ≡ faults.old
        ++ flat_map (λ p. member_faults (below path.now p.key) (faults_where model.now.shapes p.value) (member_named p.key shape.now.members)) fields.now) }
{
    let mut start = 0;
    let mut next = 0;
    for field in fields {
        let own = table_at(parts, start);
        if let Some((member, after)) = find_member(shape.members.as_slice(), next, &field.key) {
            let inside = below(alloc, path, &field.key)?;
            judge(
                alloc,
                faults,
                model,
                Wanted::of_member(member),
                &inside,
                own,
            )?;
            next = after;
        }
        start += own.len();
    }
    Ok(())
}
