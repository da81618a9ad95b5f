//! Times that have no text: RFC 822 here has the years 1970 to 9999.
ghost use Rattle.std.specs.Prelude.{◌≡◌};
ghost use Rattle.std.specs.List.{list_any};
ghost use Rattle.typed_value.specs.Fits.{with_values};
ghost use Rattle.typed_value.specs.declared.typed.Typed.{out-Typed};
ghost use Rattle.value_texts.specs.Inside.{can_hold_time};
ghost use Rattle.value_texts.specs.LostTimes.{is_lost, is_lost_moment, item_is_lost, field_is_lost, fields_are_lost};

use crate::fields::member_named;
use crate::slot::{Slot, is_map, shape_at};
use json_doc::Pair;
use service_model::{Model, Shape, ShapeId, TimeForm};
use time_texts::has_rfc822;
use typed_value::Typed;

/// Whether a time in a value has no text where it stands, with the form that is usual there.
#[cycle(losing)]
pub fn is_lost(model: &Model, usual: TimeForm, slot: Slot, value: &Typed) -> bool
    ensures { result ≡ is_lost model.now.shapes usual value.now slot }
{
    let Some(shape) = shape_at(model, slot.shape) else {
        return false;
    };
    match value {
        Typed::Moment(moment) => is_lost_moment(slot.form(model, usual), *moment),
        Typed::Items(items) => items_are_lost(model, usual, shape.item, items.as_slice()),
        Typed::Fields(fields) => fields_are_lost(model, usual, shape, fields.as_slice()),
        _ => false,
    }
}

/// Whether a time can stand in a value: the shapes of others need no look.
fn can_hold_time(value: &Typed) -> bool
    ensures { result ≡ can_hold_time (out-Typed value.now) }
{
    matches!(value, Typed::Moment(_) | Typed::Items(_) | Typed::Fields(_))
}

fn is_lost_moment(form: TimeForm, moment: i64) -> bool
    ensures { result ≡ is_lost_moment form moment }
{
    match form {
        TimeForm::Rfc822 => !has_rfc822(moment),
        TimeForm::Unix | TimeForm::Iso8601 => false,
    }
}

#[cycle(losing)]
fn items_are_lost(model: &Model, usual: TimeForm, item: Option<ShapeId>, items: &[Typed]) -> bool
    ensures { result ≡ list_any (λ v. item_is_lost item (is_lost model.now.shapes usual v)) items.now }
{
    let Some(id) = item else {
        return false;
    };
    for value in items {
        if is_lost(model, usual, Slot::of_shape(id), value) {
            return true;
        }
    }
    false
}

#[cycle(losing)]
fn fields_are_lost(model: &Model, usual: TimeForm, shape: &Shape, fields: &[Pair<Typed>]) -> bool
    ensures { result ≡ fields_are_lost shape.now (with_values (is_lost model.now.shapes usual) fields.now) }
{
    for field in fields {
        if field_is_lost(model, usual, shape, field) {
            return true;
        }
    }
    false
}

#[cycle(losing)]
fn field_is_lost(model: &Model, usual: TimeForm, shape: &Shape, field: &Pair<Typed>) -> bool
    ensures { result ≡ field_is_lost shape.now (record { key = field.now.key; value = is_lost model.now.shapes usual field.now.value }) }
{
    if !can_hold_time(&field.value) {
        return false;
    }
    if is_map(shape.kind) {
        return match shape.item {
            Some(id) => is_lost(model, usual, Slot::of_shape(id), &field.value),
            None => false,
        };
    }
    match member_named(shape.members.as_slice(), &field.key) {
        Some(member) => is_lost(model, usual, Slot::of_member(member), &field.value),
        None => false,
    }
}
