//! Whether a value fits a shape, by its table and without memory.
ghost use Rattle.std.specs.Prelude.{◌≡◌, ◌<◌, length, map, IfSome};
ghost use Rattle.std.specs.List.{list_all};
ghost use Rattle.service_model.specs.Kept.{IsWithin};
ghost use Rattle.typed_value.specs.declared.typed.Typed.{Typed as Value, out-Typed, map-Typed};
ghost use Rattle.typed_value.specs.Fits.{Test, has_one, has_key, item_fits, member_fits, fields_fit, structure_fits, inside_fits, fits_where, fits_of, with_values};
ghost use Rattle.typed_value.specs.Places.{IsComplete, member_named};
ghost use Rattle.typed_value.specs.Tables.{AreNodes, IsTable, parts_in, root_of};

use crate::finding::{find_key, find_member};
use crate::kinds::{is_enough, is_long_enough, is_map, takes};
use crate::node::{Node, table_at};
use crate::sizes::characters;
use crate::wanted::Wanted;
use crate::{Flat, Typed};
use json_doc::{Pair, Text};
use service_model::{Model, Shape, ShapeId};

/// Whether the value fits the shape.
pub fn fits_flat(model: &Model, shape: ShapeId, flat: &Flat) -> bool
    requires { shape.0 < length model.now.shapes }
    ensures { result ≡ fits_of model.now.shapes shape flat.now }
{
    fits(model, Wanted::of_shape(shape), flat.nodes())
}

#[cycle(fitting)]
fn fits(model: &Model, wanted: Wanted, nodes: &[Node]) -> bool
    requires known { wanted.shape.0 < length model.now.shapes }
    requires table { IsTable nodes.now }
    ensures { result ≡ fits_where model.now.shapes (root_of nodes.now) wanted }
{
    let Some((node, below)) = nodes.split_first() else {
        return true;
    };
    let shape = model.shape(wanted.shape);
    takes(wanted.is_json, shape, node.value) && inside_fits(model, shape, node.value, below)
}

/// Whether the size and the parts of a value fit.
#[cycle(fitting)]
fn inside_fits(model: &Model, shape: &Shape, value: &Typed, below: &[Node]) -> bool
    requires kept { IsComplete model.now.shapes shape.now }
    requires nodes { AreNodes below.now (parts_in (out-Typed value.now)) }
    ensures { result ≡ inside_fits shape.now (map-Typed Value Test (fits_where model.now.shapes) (out-Typed value.now)) }
{
    match value {
        Typed::Text(text) => is_long_enough(shape.min, characters(text)),
        Typed::Int(n) => is_enough(shape.min, *n),
        Typed::Items(items) => {
            is_long_enough(shape.min, items.len() as u64)
                && items_fit(model, shape.item, items.as_slice(), below)
        }
        Typed::Fields(fields) => fields_fit(model, shape, fields.as_slice(), below),
        _ => true,
    }
}

#[cycle(fitting)]
fn items_fit(model: &Model, item: Option<ShapeId>, items: &[Typed], below: &[Node]) -> bool
    requires item { IfSome item (IsWithin model.now.shapes) }
    requires nodes { AreNodes below.now items.now }
    ensures { result ≡ list_all (λ v. item_fits item (fits_where model.now.shapes v)) items.now }
{
    let Some(item) = item else {
        return true;
    };
    let mut start = 0;
    for _index in 0..items.len() {
        let own = table_at(below, start);
        if !fits(model, Wanted::of_shape(item), own) {
            return false;
        }
        start += own.len();
    }
    true
}

#[cycle(fitting)]
fn fields_fit(model: &Model, shape: &Shape, fields: &[Pair<Typed>], below: &[Node]) -> bool
    requires kept { IsComplete model.now.shapes shape.now }
    requires nodes { AreNodes below.now (map (λ p. p.value) fields.now) }
    ensures { result ≡ fields_fit shape.now (with_values (fits_where model.now.shapes) fields.now) }
{
    if is_map(shape.kind) {
        return entries_fit(model, shape.item, fields, below);
    }
    has_one(shape, fields.len())
        && has_required(shape, fields)
        && members_fit(model, shape, fields, below)
}

#[cycle(fitting)]
fn entries_fit(model: &Model, item: Option<ShapeId>, fields: &[Pair<Typed>], below: &[Node]) -> bool
    requires item { IfSome item (IsWithin model.now.shapes) }
    requires nodes { AreNodes below.now (map (λ p. p.value) fields.now) }
    ensures { result ≡ list_all (λ p. item_fits item (fits_where model.now.shapes p.value)) fields.now }
{
    let Some(item) = item else {
        return true;
    };
    let mut start = 0;
    for _index in 0..fields.len() {
        let own = table_at(below, start);
        if !fits(model, Wanted::of_shape(item), own) {
            return false;
        }
        start += own.len();
    }
    true
}

/// Whether each entry is a member that the structure has, and fits it.
#[cycle(fitting)]
fn members_fit(model: &Model, shape: &Shape, fields: &[Pair<Typed>], below: &[Node]) -> bool
    requires kept { IsComplete model.now.shapes shape.now }
    requires nodes { AreNodes below.now (map (λ p. p.value) fields.now) }
    ensures { result ≡ list_all (λ p. member_fits (member_named p.key shape.now.members) (fits_where model.now.shapes p.value)) fields.now }
{
    let mut start = 0;
    let mut next = 0;
    for field in fields {
        let own = table_at(below, start);
        let Some((member, after)) = find_member(shape.members.as_slice(), next, &field.key) else {
            return false;
        };
        if !fits(model, Wanted::of_member(member), own) {
            return false;
        }
        start += own.len();
        next = after;
    }
    true
}

/// Whether as many members are there as a union has, where it is one.
pub(crate) fn has_one(shape: &Shape, count: usize) -> bool
    ensures { result ≡ has_one shape.now count }
{
    !shape.is_union || count == 1
}

/// Whether all members are there that must be.
fn has_required(shape: &Shape, fields: &[Pair<Typed>]) -> bool
    ensures { result ≡ list_all (has_key fields.now) shape.now.required }
{
    let mut next = 0;
    for name in shape.required.as_slice() {
        match find_key(fields, next, name) {
            Some(after) => next = after,
            None => return false,
        }
    }
    true
}
