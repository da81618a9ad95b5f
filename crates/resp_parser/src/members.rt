//! The members of a rest-json reply, each from its place.
ghost use Rattle.std.specs.Prelude.{◌≡◌, ◌<◌, ◌++◌, length, pos, Contains, IfSome, OnOk, option_copied};
ghost use Rattle.service_model.specs.Kept.{HasOwnNames, IsShape, TellsWires};
ghost use Rattle.texts.specs.Keys.{keys, IsNew};
ghost use Rattle.resp_parser.specs.Inside.{Ends, EndsBy};
ghost use Rattle.resp_parser.specs.Headers.{IsNumber};
ghost use Rattle.resp_parser.specs.Members.{AreMembers, PlacedValue, entry_for, RestBody, body_value, is_read, member_named};

use crate::bodies::{object_body, payload};
use crate::body_fault::BodyFault;
use crate::headers::{header_value, headers_behind};
use crate::keeping::keep;
use crate::paths::below_name;
use crate::values::{there, values_of};
use aws_world::Reply;
use json_doc::{Decimal, Doc, OutOfMemory, Pairs, Text};
use service_model::{Location, Member, Model, Shape};
use std::alloc::Global;

/// A reply and the structure that it is to give.
#[derive(Clone, Copy)]
pub(crate) struct Given<'a> {
    pub(crate) model: &'a Model,
    pub(crate) shape: &'a Shape,
    pub(crate) reply: &'a Reply,
}

/// The object of the body: its own, or that of the payload alone.
pub(crate) fn rest_body(alloc: Global, given: Given) -> Result<Pairs<Doc>, BodyFault>
    requires { IsShape given.model.now.shapes given.shape.now }
    ensures { EndsBy (λ fields. fields) result
        (RestBody given.entry.model.now.shapes given.entry.shape.now given.entry.shape.now.payload given.entry.reply.now.body) }
{
    let bytes = given.reply.body.as_slice();
    let Some(name) = &given.shape.payload else {
        return object_body(alloc, bytes);
    };
    let mut fields = Pairs::new(alloc);
    if let Some(member) = member_named(given.shape.members.as_slice(), name) {
        let value = payload(alloc, given.model.shape(member.shape), bytes)?;
        fields.push_new(member.wire.copy(alloc)?, value)?;
    }
    Ok(fields)
}

fn member_named<'m>(members: &'m [Member], name: &Text) -> Option<&'m Member>
    ensures named { option_copied result ≡ member_named name.now members.now }
    ensures one { IfSome result (λ m. Contains members.now m.now) }
{
    for member in members {
        if member.name == *name {
            return Some(member);
        }
    }
    None
}

/// The members in the model's order, given the object of the body.
pub(crate) fn members_of(
    alloc: Global,
    given: Given,
    fields: Pairs<Doc>,
) -> Result<Pairs<Doc>, BodyFault>
    requires kept { IsShape given.model.now.shapes given.shape.now }
    requires own_names { HasOwnNames given.shape.now.members }
    requires own_wires { TellsWires given.shape.now }
    ensures { EndsBy (λ made. made) result (AreMembers given.entry.model.now.shapes given.entry.reply.now
        given.entry.shape.now.payload fields given.entry.shape.now.members) }
{
    let members = given.shape.members.as_slice();
    let mut made = Pairs::with_capacity(alloc, members.len())?;
    let mut values = values_of(alloc, given.shape, fields)?;
    for (at, member) in members.iter().enumerate() {
        match placed_value(alloc, given, member, values[at].take()) {
            Ok(value) => push_value(alloc, &mut made, member, value)?,
            Err(fault) => return Err(below_name(alloc, &member.name, fault)),
        }
    }
    Ok(made)
}

/// Puts the value of a member at the end, where there is one.
fn push_value(
    alloc: Global,
    made: &mut Pairs<Doc>,
    member: &Member,
    value: Option<Doc>,
) -> Result<(), OutOfMemory>
    requires { IsNew member.now.name (keys made.old) }
    ensures { OnOk result (made.new ≡ made.old ++ entry_for member.now value) }
{
    if let Some(value) = value {
        made.push_new(member.name.copy(alloc)?, value)?;
    }
    Ok(())
}

/// The value of a member from its place. Labels and queries are parts of requests alone.
fn placed_value(
    alloc: Global,
    given: Given,
    member: &Member,
    value: Option<Doc>,
) -> Result<Option<Doc>, BodyFault>
    requires { member.now.shape.0 < length given.model.now.shapes }
    ensures { EndsBy (λ value. value) result (PlacedValue given.entry.model.now.shapes given.entry.reply.now
        given.entry.shape.now.payload value member.now member.now.location) }
{
    match member.location {
        Some(Location::Header) => {
            let kind = given.model.shape(member.shape).kind;
            header_value(alloc, kind, member, given.reply)
        }
        Some(Location::Headers) => {
            let found = headers_behind(alloc, &member.wire, given.reply)?;
            Ok(Some(Doc::Fields(found)))
        }
        Some(Location::StatusCode) => Ok(Some(status_value(given.reply.status))),
        _ => body_value(alloc, given, member, value),
    }
}

fn status_value(status: u16) -> Doc
    ensures { IsNumber (pos status) result }
{
    Doc::Number(Decimal::of(i64::from(status)))
}

/// The value of a member of the body.
fn body_value(
    alloc: Global,
    given: Given,
    member: &Member,
    value: Option<Doc>,
) -> Result<Option<Doc>, BodyFault>
    requires { member.now.shape.0 < length given.model.now.shapes }
    ensures { Ends (λ value. value) result
        (body_value given.entry.model.now.shapes given.entry.shape.now.payload member.now value) }
{
    if !is_read(given.shape.payload.as_ref(), member) {
        return Ok(None);
    }
    match there(value) {
        Some(value) => Ok(Some(keep(alloc, given.model, member.shape, value)?)),
        None => Ok(None),
    }
}

/// Whether a member is read from the body: where a payload is named, it alone is.
fn is_read(payload: Option<&Text>, member: &Member) -> bool
    ensures { result ≡ is_read (option_copied payload.entry) member.now }
{
    match payload {
        Some(name) => member.name == *name,
        None => true,
    }
}
