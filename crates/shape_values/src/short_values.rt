//! The values of shorthand trees at shapes.
ghost use Rattle.std.specs.Prelude.{◌≡◌, ◌∷◌, [], map, Err, IfOk};
ghost use Rattle.std.specs.Option.{option_copied};
ghost use Rattle.shorthand.specs.declared.short.Short.TheOpen.{Short-F};
ghost use Rattle.texts.specs.Calls.{Answers};
ghost use Rattle.typed_value.specs.Fits.{with_values};
ghost use Rattle.typed_value.specs.Places.{member_named};
ghost use Rattle.shape_values.specs.Faults.{is_memory};
ghost use Rattle.shape_values.specs.Instants.{Instants, TellsTimes};
ghost use Rattle.shape_values.specs.ShortValues.{meant, layer, short_value, single_value, tree_value, elements_value, item_value, member_value, fields_value, misfit, list_of_one, one_value};

use crate::json_values::member_named;
use crate::kept::kept_short;
use crate::kinds::{is_float, is_list, is_map, is_structure};
use crate::paths::{under_item, under_key};
use crate::place::{Place, holds_lists, shape_at};
use crate::scalars::{here, scalar_of};
use crate::{ArgFault, ValueKind};
use service_model::{Kind, Member, Model, Shape, ShapeId};
use shorthand::Short;
use std::alloc::Global;
use texts::{List, OutOfMemory, Pairs};
use typed_value::Typed;

/// The value of a tree where it stands.
#[cycle(reading)]
pub fn value_of_short(
    alloc: Global,
    model: &Model,
    place: Place,
    tree: &Short,
) -> Result<Typed, ArgFault>
    ensures { (instants : Instants) → TellsTimes instants → Answers is_memory (λ value. value) result
        (short_value instants model.now.shapes place tree.now) }
{
    let Some(shape) = shape_at(model, place.shape) else {
        return Ok(kept_short(alloc, tree)?);
    };
    if place.takes_json(shape) {
        return Err(here(alloc, ValueKind::NeedsJson));
    }
    if !is_list(shape.kind) {
        return tree_value(alloc, model, shape, tree);
    }
    if holds_lists(model, shape) {
        return Err(here(alloc, ValueKind::NeedsJson));
    }
    match tree {
        Short::Items(items) => items_value(alloc, model, shape.item, items.as_slice()),
        Short::Word(_) => list_of_one(alloc, model, shape.item, tree),
        Short::Fields(_) => list_of_one(alloc, model, shape.item, tree),
    }
}

/// The value of a tree where no list is wanted.
#[cycle(reading)]
fn single_value(alloc: Global, model: &Model, place: Place, tree: &Short) -> Result<Typed, ArgFault>
    ensures { (instants : Instants) → TellsTimes instants → Answers is_memory (λ value. value) result
        (single_value instants model.now.shapes place tree.now) }
{
    let Some(shape) = shape_at(model, place.shape) else {
        return Ok(kept_short(alloc, tree)?);
    };
    if place.takes_json(shape) || is_list(shape.kind) {
        return Err(here(alloc, ValueKind::NeedsJson));
    }
    tree_value(alloc, model, shape, tree)
}

/// The value of a tree at a shape that is no list.
#[cycle(reading)]
fn tree_value(alloc: Global, model: &Model, shape: &Shape, tree: &Short) -> Result<Typed, ArgFault>
    ensures { (instants : Instants) → TellsTimes instants → Answers is_memory (λ value. value) result
        (tree_value instants shape.now (layer instants model.now.shapes tree.now)) }
{
    match tree {
        Short::Word(text) => scalar_of(alloc, shape.kind, text.copy(alloc)?),
        Short::Fields(fields) if is_map(shape.kind) => {
            entries_value(alloc, model, shape.item, fields)
        }
        Short::Fields(fields) if is_structure(shape.kind) => {
            members_value(alloc, model, shape, fields)
        }
        Short::Items(_) | Short::Fields(_) => Err(misfit(alloc, shape.kind)),
    }
}

/// What is wrong with a value that doesn't go with its kind.
fn misfit(alloc: Global, kind: Kind) -> ArgFault
    ensures { misfit kind ≡ Err result }
{
    if is_float(kind) {
        here(alloc, ValueKind::Float)
    } else {
        here(alloc, ValueKind::ExpectedOne)
    }
}

/// The items of a list.
#[cycle(reading)]
fn items_value(
    alloc: Global,
    model: &Model,
    item: Option<ShapeId>,
    items: &[Short],
) -> Result<Typed, ArgFault>
    ensures { (instants : Instants) → TellsTimes instants → Answers is_memory (λ value. value) result
        (elements_value instants model.now.shapes item (Short-F.Items (map (meant instants model.now.shapes) items.now))) }
{
    let mut made = List::new(alloc);
    for (at, tree) in items.iter().enumerate() {
        let value = item_value(alloc, model, item, tree);
        match under_item(alloc, at, value) {
            Ok(value) => made.push(value)?,
            Err(fault) => return Err(fault),
        }
    }
    Ok(Typed::Items(made))
}

/// A list of one tree.
#[cycle(reading)]
fn list_of_one(
    alloc: Global,
    model: &Model,
    item: Option<ShapeId>,
    tree: &Short,
) -> Result<Typed, ArgFault>
    ensures { (instants : Instants) → TellsTimes instants → Answers is_memory (λ value. value) result
        (list_of_one (one_value instants model.now.shapes (layer instants model.now.shapes tree.now) item)) }
{
    let value = one_value(alloc, model, item, tree);
    match under_item(alloc, 0, value) {
        Ok(value) => Ok(Typed::Items(only(alloc, value)?)),
        Err(fault) => Err(fault),
    }
}

/// A list of one value.
fn only(alloc: Global, value: Typed) -> Result<List<Typed>, OutOfMemory>
    ensures { IfOk result (λ made. made ≡ value ∷ []) }
{
    let mut made = List::new(alloc);
    made.push(value)?;
    Ok(made)
}

/// The one item of a list, which is no list.
#[cycle(reading)]
fn one_value(
    alloc: Global,
    model: &Model,
    item: Option<ShapeId>,
    tree: &Short,
) -> Result<Typed, ArgFault>
    ensures { (instants : Instants) → TellsTimes instants → Answers is_memory (λ value. value) result
        (one_value instants model.now.shapes (layer instants model.now.shapes tree.now) item) }
{
    match item {
        Some(id) => single_value(alloc, model, Place::of_shape(id), tree),
        None => Ok(kept_short(alloc, tree)?),
    }
}

/// An item of a list, or a value of a map.
#[cycle(reading)]
fn item_value(
    alloc: Global,
    model: &Model,
    item: Option<ShapeId>,
    tree: &Short,
) -> Result<Typed, ArgFault>
    ensures { (instants : Instants) → TellsTimes instants → Answers is_memory (λ value. value) result
        (item_value item (meant instants model.now.shapes tree.now)) }
{
    match item {
        Some(id) => value_of_short(alloc, model, Place::of_shape(id), tree),
        None => Ok(kept_short(alloc, tree)?),
    }
}

/// The entries of a map.
#[cycle(reading)]
fn entries_value(
    alloc: Global,
    model: &Model,
    item: Option<ShapeId>,
    fields: &Pairs<Short>,
) -> Result<Typed, ArgFault>
    ensures { (instants : Instants) → TellsTimes instants → Answers is_memory (λ value. value) result
        (fields_value (λ p. item_value item p.value) (with_values (meant instants model.now.shapes) fields.now)) }
{
    let mut made = Pairs::with_capacity(alloc, fields.len())?;
    for field in fields.as_slice() {
        let value = item_value(alloc, model, item, &field.value);
        match under_key(alloc, &field.key, value) {
            Ok(value) => made.push_new(field.key.copy(alloc)?, value)?,
            Err(fault) => return Err(fault),
        }
    }
    Ok(Typed::Fields(made))
}

/// The members of a structure.
#[cycle(reading)]
fn members_value(
    alloc: Global,
    model: &Model,
    shape: &Shape,
    fields: &Pairs<Short>,
) -> Result<Typed, ArgFault>
    ensures { (instants : Instants) → TellsTimes instants → Answers is_memory (λ value. value) result
        (fields_value (λ p. member_value (member_named p.key shape.now.members) p.value) (with_values (meant instants model.now.shapes) fields.now)) }
{
    let mut made = Pairs::with_capacity(alloc, fields.len())?;
    for field in fields.as_slice() {
        let member = member_named(shape.members.as_slice(), &field.key);
        let value = member_value(alloc, model, member, &field.value);
        match under_key(alloc, &field.key, value) {
            Ok(value) => made.push_new(field.key.copy(alloc)?, value)?,
            Err(fault) => return Err(fault),
        }
    }
    Ok(Typed::Fields(made))
}

/// A member; one that the structure doesn't have is kept as it is.
#[cycle(reading)]
fn member_value(
    alloc: Global,
    model: &Model,
    member: Option<&Member>,
    tree: &Short,
) -> Result<Typed, ArgFault>
    ensures { (instants : Instants) → TellsTimes instants → Answers is_memory (λ value. value) result
        (member_value (option_copied member.entry) (meant instants model.now.shapes tree.now)) }
{
    match member {
        Some(member) => value_of_short(alloc, model, Place::of_member(member), tree),
        None => Ok(kept_short(alloc, tree)?),
    }
}
