//! Values of a reply at their shapes. A value is taken apart, and its parts are moved.
ghost use Rattle.std.specs.Prelude.{◌≡◌, ◌<◌, length, map, Some, false};
ghost use Rattle.json_doc.specs.declared.doc.Doc as doc;
ghost use Rattle.json_doc.specs.declared.doc.Doc.TheOpen.{Doc-F};
ghost use Rattle.service_model.specs.Kept.{HasOwnNames, IsShape, TellsWires};
ghost use Rattle.resp_parser.specs.Inside.{Ends};
ghost use Rattle.resp_parser.specs.FirstFault.{entries_fault, fault_of, items_fault, judge_of, kind_fault, members_fault};
ghost use Rattle.resp_parser.specs.Kept.{inside_kept, kept_of, known_members, with_values};
ghost use Rattle.resp_parser.specs.Kinds.{passes};
ghost use Rattle.resp_parser.specs.Paths.{unless};

use crate::body_fault::BodyFault;
use crate::kinds::{is_list, is_map, is_structure, passes};
use crate::paths::{below_item, below_name, whole};
use crate::unions::{unknown_member, unknown_tag};
use crate::values::{there, values_of};
use json_doc::{Doc, List, Pair, Pairs};
use service_model::{Model, Shape, ShapeId};
use std::alloc::Global;
use std::mem;

/// What is kept of a value at a shape, or the path of its first fault.
#[cycle(keeping)]
pub(crate) fn keep(alloc: Global, model: &Model, id: ShapeId, value: Doc) -> Result<Doc, BodyFault>
    requires { id.0 < length model.now.shapes }
    ensures { Ends (λ kept. kept) result
        (unless (fault_of model.now.shapes value id) (kept_of model.now.shapes value (Some id))) }
{
    let shape = model.shape(id);
    if passes(shape) {
        return Ok(value);
    }
    match value {
        Doc::Null => Ok(Doc::Null),
        Doc::Items(items) => keep_items(alloc, model, shape, items),
        Doc::Fields(fields) => keep_fields(alloc, model, shape, fields),
        Doc::Flag(_) | Doc::Number(_) | Doc::Str(_) => Err(whole(alloc)),
    }
}

/// A list, where a list, a map or a structure is due.
#[cycle(keeping)]
fn keep_items(
    alloc: Global,
    model: &Model,
    shape: &Shape,
    items: List<Doc>,
) -> Result<Doc, BodyFault>
    requires kept { IsShape model.now.shapes shape.now }
    requires parts { passes shape.now ≡ false }
    ensures { Ends (λ kept. kept) result (unless
        (kind_fault shape.now (Doc-F.Items (map (judge_of model.now.shapes) items)))
        (inside_kept shape.now (Doc-F.Items (map (kept_of model.now.shapes) items)))) }
{
    if !is_list(shape.kind) {
        return Err(whole(alloc));
    }
    match shape.item {
        Some(item) => {
            let kept = each_kept(alloc, model, item, items.into_vec())?;
            Ok(Doc::Items(List::from_vec(kept)))
        }
        None => Ok(Doc::Items(items)),
    }
}

#[cycle(keeping)]
fn each_kept(
    alloc: Global,
    model: &Model,
    item: ShapeId,
    values: Vec<Doc>,
) -> Result<Vec<Doc>, BodyFault>
    requires { item.0 < length model.now.shapes }
    ensures { Ends (λ kept. kept.items) result (unless
        (items_fault (Some item) 0 (map (judge_of model.now.shapes) values.items))
        (map (λ value. kept_of model.now.shapes value (Some item)) values.items)) }
{
    let mut values = values;
    for at in 0..values.len() {
        let value = mem::replace(&mut values[at], Doc::Null);
        match keep(alloc, model, item, value) {
            Ok(kept) => values[at] = kept,
            Err(fault) => return Err(below_item(alloc, at, fault)),
        }
    }
    Ok(values)
}

/// An object, where a list, a map or a structure is due.
#[cycle(keeping)]
fn keep_fields(
    alloc: Global,
    model: &Model,
    shape: &Shape,
    fields: Pairs<Doc>,
) -> Result<Doc, BodyFault>
    requires kept { IsShape model.now.shapes shape.now }
    requires own_names { HasOwnNames shape.now.members }
    requires own_wires { TellsWires shape.now }
    requires parts { passes shape.now ≡ false }
    ensures { Ends (λ kept. kept) result (unless
        (kind_fault shape.now (Doc-F.Fields (with_values (judge_of model.now.shapes) fields)))
        (inside_kept shape.now (Doc-F.Fields (with_values (kept_of model.now.shapes) fields)))) }
{
    if is_map(shape.kind) {
        return match shape.item {
            Some(item) => keep_entries(alloc, model, item, fields),
            None => Ok(Doc::Fields(fields)),
        };
    }
    if !is_structure(shape.kind) {
        return Err(whole(alloc));
    }
    match unknown_tag(shape, fields.as_slice()) {
        Some(tag) => Ok(unknown_member(alloc, tag)?),
        None => keep_members(alloc, model, shape, fields),
    }
}

/// The entries of a map.
#[cycle(keeping)]
fn keep_entries(
    alloc: Global,
    model: &Model,
    item: ShapeId,
    fields: Pairs<Doc>,
) -> Result<Doc, BodyFault>
    requires { item.0 < length model.now.shapes }
    ensures { Ends (λ kept. kept) result (unless
        (entries_fault (Some item) (with_values (judge_of model.now.shapes) fields))
        (doc.Fields (with_values (λ value. kept_of model.now.shapes value (Some item)) fields))) }
{
    let mut made = Pairs::with_capacity(alloc, fields.len())?;
    for Pair { key, value } in fields.into_vec() {
        match keep(alloc, model, item, value) {
            Ok(kept) => made.push_new(key, kept)?,
            Err(fault) => return Err(below_name(alloc, &key, fault)),
        }
    }
    Ok(Doc::Fields(made))
}

/// The members that the model knows, in its order.
#[cycle(keeping)]
fn keep_members(
    alloc: Global,
    model: &Model,
    shape: &Shape,
    fields: Pairs<Doc>,
) -> Result<Doc, BodyFault>
    requires kept { IsShape model.now.shapes shape.now }
    requires own_names { HasOwnNames shape.now.members }
    requires own_wires { TellsWires shape.now }
    ensures { Ends (λ kept. kept) result (unless
        (members_fault (with_values (judge_of model.now.shapes) fields) shape.now.members)
        (doc.Fields (known_members shape.now.members (with_values (kept_of model.now.shapes) fields)))) }
{
    let members = shape.members.as_slice();
    let mut made = Pairs::with_capacity(alloc, members.len().min(fields.len()))?;
    let mut values = values_of(alloc, shape, fields)?;
    for (at, member) in members.iter().enumerate() {
        let Some(value) = there(values[at].take()) else {
            continue;
        };
        match keep(alloc, model, member.shape, value) {
            Ok(kept) => made.push_new(member.name.copy(alloc)?, kept)?,
            Err(fault) => return Err(below_name(alloc, &member.name, fault)),
        }
    }
    Ok(Doc::Fields(made))
}
