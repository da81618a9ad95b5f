//! The members of structures.
ghost use Rattle.std.specs.Prelude.{◌≡◌, ◌<◌, ◌^◌, length, unwrap_or, IfOk};
ghost use Rattle.std.specs.Option.{option_copied};
ghost use Rattle.texts.specs.Calls.{Answers};
ghost use Rattle.model_files.specs.Faults.{is_memory};
ghost use Rattle.service_model.specs.Kept.{HasOwnNames};
ghost use Rattle.service_model.specs.Locations.{is_scalar_shape};
ghost use Rattle.service_model.specs.Members.{location_of, time_in, time_of, host_label_of, context_of, roles_of, member_at, member_of, members_of};

use crate::choices::{location_named, time_form_named};
use crate::locations::{can_stand, is_scalar};
use crate::numbering::{Names, reference};
use crate::{Location, Member, ShapeId, TimeForm};
use json_doc::{Doc, List, OutOfMemory, Pair, Pairs, Text};
use model_files::{
    ModelFault, copied, flag_at, inside, maybe_object, maybe_text, object, text_at, wrong,
};
use std::alloc::Global;

/// Reads the members of a structure.
pub fn read_members(
    alloc: Global,
    names: &Names,
    pairs: &Pairs<Doc>,
) -> Result<List<Member>, ModelFault>
    requires { length names.now.entries < 2 ^ 32 }
    ensures value { Answers is_memory (λ x. x) result (members_of names.now.entries pairs.now) }
    ensures distinct { IfOk result (λ members. HasOwnNames members) }
{
    let mut members = Vec::with_capacity(alloc, pairs.len())?;
    for pair in pairs.as_slice() {
        let member = inside(alloc, pair.key.as_str(), read_member(alloc, names, pair))?;
        members.push(member)?;
    }
    Ok(List::from_vec(members))
}

#[tactic(auto, unfolding(crate::specs::Members::member_of))]
fn read_member(alloc: Global, names: &Names, pair: &Pair<Doc>) -> Result<Member, ModelFault>
    requires { length names.now.entries < 2 ^ 32 }
    ensures { Answers is_memory (λ x. x) result (member_of names.now.entries pair.now) }
{
    let fields = object(&pair.value)?;
    let shape = reference(alloc, names, fields)?;
    let location = read_location(alloc, names, fields, shape)?;
    member_at(alloc, names, pair, fields, shape, location)
}

/// A member with its shape and its place.
#[tactic(auto, unfolding(crate::specs::Members::member_at))]
fn member_at(
    alloc: Global,
    names: &Names,
    pair: &Pair<Doc>,
    fields: &Pairs<Doc>,
    shape: ShapeId,
    location: Option<Location>,
) -> Result<Member, ModelFault>
    ensures { Answers is_memory (λ x. x) result (member_at names.now.entries pair.now fields.now shape location) }
{
    let wire = maybe_text(alloc, fields, "locationName")?;
    let time = read_time(alloc, fields)?;
    let roles = read_roles(alloc, names, fields, shape)?;
    Ok(Member {
        name: pair.key.copy(alloc)?,
        wire: wire_name(alloc, wire, &pair.key)?,
        shape,
        location,
        time,
        token: roles.token,
        json_value: roles.json_value,
        host_label: roles.host_label,
        context: roles.context,
    })
}

/// The name that is sent: that at `locationName`, else the member's own.
fn wire_name(alloc: Global, wire: Option<&Text>, own: &Text) -> Result<Text, OutOfMemory>
    ensures { IfOk result (λ name. name ≡ unwrap_or (option_copied wire.entry) own.now) }
{
    match wire {
        Some(wire) => wire.copy(alloc),
        None => own.copy(alloc),
    }
}

/// What a member is used for beside its value.
#[derive(Drop)]
pub struct Roles {
    token: bool,
    json_value: bool,
    host_label: bool,
    context: Option<Text>,
}

#[tactic(auto, unfolding(crate::specs::Members::roles_of))]
fn read_roles(
    alloc: Global,
    names: &Names,
    fields: &Pairs<Doc>,
    shape: ShapeId,
) -> Result<Roles, ModelFault>
    ensures { Answers is_memory (λ x. x) result (roles_of names.now.entries fields.now shape) }
{
    let token = flag_at(alloc, fields, "idempotencyToken")?;
    let json_value = flag_at(alloc, fields, "jsonvalue")?;
    let host_label = read_host_label(alloc, names, fields, shape)?;
    let context = read_context(alloc, fields)?;
    Ok(Roles {
        token,
        json_value,
        host_label,
        context: copied(alloc, context)?,
    })
}

/// Where a member stands, which its shape must be able to.
#[tactic(auto, unfolding(crate::specs::Members::location_of))]
fn read_location(
    alloc: Global,
    names: &Names,
    fields: &Pairs<Doc>,
    shape: ShapeId,
) -> Result<Option<Location>, ModelFault>
    ensures { Answers is_memory (λ x. x) result (location_of names.now.entries fields.now shape) }
{
    let Some(name) = maybe_text(alloc, fields, "location")? else {
        return Ok(None);
    };
    match location_named(name) {
        Some(location) if can_stand(names, shape, location) => Ok(Some(location)),
        _ => Err(wrong(alloc, "location")),
    }
}

/// How a moment is written.
#[tactic(auto, unfolding(crate::specs::Members::time_of))]
pub fn read_time(alloc: Global, fields: &Pairs<Doc>) -> Result<Option<TimeForm>, ModelFault>
    ensures { Answers is_memory (λ x. x) result (time_of fields.now) }
{
    let name = maybe_text(alloc, fields, "timestampFormat")?;
    time_in(alloc, name)
}

/// The form that is named, where one is.
#[tactic(auto, unfolding(crate::specs::Members::time_in))]
fn time_in(alloc: Global, name: Option<&Text>) -> Result<Option<TimeForm>, ModelFault>
    ensures { Answers is_memory (λ x. x) result (time_in (option_copied name.entry)) }
{
    let Some(name) = name else {
        return Ok(None);
    };
    match time_form_named(name) {
        Some(form) => Ok(Some(form)),
        None => Err(wrong(alloc, "timestampFormat")),
    }
}

/// Whether a member fills a label of the host prefix, which only a scalar can.
#[tactic(auto, unfolding(crate::specs::Members::host_label_of))]
fn read_host_label(
    alloc: Global,
    names: &Names,
    fields: &Pairs<Doc>,
    shape: ShapeId,
) -> Result<bool, ModelFault>
    ensures { Answers is_memory (λ x. x) result (host_label_of names.now.entries fields.now shape) }
{
    let is_label = flag_at(alloc, fields, "hostLabel")?;
    if is_label && !is_scalar_shape(names, shape) {
        return Err(wrong(alloc, "hostLabel"));
    }
    Ok(is_label)
}

fn is_scalar_shape(names: &Names, shape: ShapeId) -> bool
    ensures { result ≡ is_scalar_shape names.now.entries shape }
{
    match names.get_index(shape.0 as usize) {
        Some((_, outline)) => is_scalar(outline),
        None => false,
    }
}

/// The parameter of endpoint rules that a member sets.
#[tactic(auto, using(model_files::proofs::Each::gives_inside), unfolding(crate::specs::Members::context_of))]
fn read_context(alloc: Global, fields: &Pairs<Doc>) -> Result<Option<&Text>, ModelFault>
    ensures { Answers is_memory option_copied result (context_of fields.now) }
{
    let Some(context) = maybe_object(alloc, fields, "contextParam")? else {
        return Ok(None);
    };
    let name = inside(alloc, "contextParam", text_at(alloc, context, "name"))?;
    Ok(Some(name))
}
