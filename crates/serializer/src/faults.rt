//! The headers of a message's members, or the first member that can't be sent.
ghost use Rattle.std.specs.Prelude.{◌≡◌, ◌++◌, if◌then◌else◌, Ok, Err, Some, None, IfOk, IfErr};
ghost use Rattle.service_model.specs.Admission.{members_at};
ghost use Rattle.texts.specs.Calls.{Answers, Unless};
ghost use Rattle.serializer.specs.Faults.{fills_label, is_lost_as, usual_form, body_form, is_lost_member, label_fault, parts_fault, are_bad, checked, headers_of, with_member, headers_from, is_memory};
ghost use Rattle.serializer.specs.Inside.{asked};
ghost use Rattle.serializer.specs.Members.{payload_at};

use crate::EncodeFault;
use crate::header_names::is_bad_header;
use crate::headers::{Headers, member_headers};
use crate::labels::{Labelled, has_label, member_text};
use crate::members::{is_json, members_of, payload_of};
use crate::request::Request;
use endpoint_rules::is_label;
use json_doc::{List, OutOfMemory, Text};
use service_model::{Location, Member, TimeForm};
use std::alloc::Global;
use value_texts::{Slot, is_lost, value_of};

/// Puts the headers of the members behind those that are there, member by member.
pub(crate) fn push_headers(
    alloc: Global,
    out: &mut Headers,
    request: &Request,
) -> Result<(), EncodeFault>
    ensures { Answers is_memory (λ _. out.new) result
        (headers_from (asked request.now) out.old (members_at request.now.model.now.shapes request.now.op.now.input)) }
{
    for member in members_of(request.model, request.op) {
        push_member(alloc, out, request, member)?;
    }
    Ok(())
}

/// Puts the headers of a member that can be sent.
fn push_member(
    alloc: Global,
    out: &mut Headers,
    request: &Request,
    member: &Member,
) -> Result<(), EncodeFault>
    ensures { Answers is_memory (λ _. out.new) result (with_member (asked request.now) out.old member.now) }
{
    check_parts(alloc, request, member)?;
    let headers = headers_of(alloc, request, member)?;
    push_checked(alloc, out, headers, &member.name)
}

/// The headers of a member: `json` has none.
fn headers_of(alloc: Global, request: &Request, member: &Member) -> Result<Headers, OutOfMemory>
    ensures { IfOk result (λ made. made ≡ headers_of (asked request.now) member.now) }
{
    if is_json(request.model) {
        return Ok(List::new(alloc));
    }
    match value_of(request.fields, &member.name) {
        Some(value) => member_headers(alloc, request.model, member, value),
        None => Ok(List::new(alloc)),
    }
}

/// Puts headers of a member, each of which must be able to stand behind those before it.
fn push_checked(
    alloc: Global,
    out: &mut Headers,
    headers: Headers,
    member: &Text,
) -> Result<(), EncodeFault>
    ensures { Answers is_memory (λ _. out.new) result (checked out.old headers member.now) }
{
    for (name, text) in headers.into_vec() {
        if is_bad_header(out.as_slice(), &name, &text) {
            return Err(EncodeFault::BadHeaderText(member.copy(alloc)?));
        }
        out.push((name, text))?;
    }
    Ok(())
}

/// The labels and the times of a member.
fn check_parts(alloc: Global, request: &Request, member: &Member) -> Result<(), EncodeFault>
    ensures ok { IfOk result (λ _. parts_fault (asked request.now) member.now ≡ None) }
    ensures err { IfErr result (λ f. Unless (is_memory f) (parts_fault (asked request.now) member.now ≡ Some f)) }
{
    if fills_label(request, member) {
        check_label(alloc, request, member)?;
    }
    if is_lost_member(request, member) {
        return Err(EncodeFault::TimeOutOfRange(member.name.copy(alloc)?));
    }
    Ok(())
}

/// A member that fills a label. A time without a text isn't an empty one.
fn check_label(alloc: Global, request: &Request, member: &Member) -> Result<(), EncodeFault>
    ensures ok { IfOk result (λ _. label_fault (asked request.now) member.now ≡ None) }
    ensures err { IfErr result (λ f. Unless (is_memory f) (label_fault (asked request.now) member.now ≡ Some f)) }
{
    let text = member_text(alloc, request.model, member, request.fields)?;
    if text.is_empty() {
        if is_lost_as(request, TimeForm::Iso8601, member) {
            return Ok(());
        }
        return Err(EncodeFault::EmptyLabel(member.name.copy(alloc)?));
    }
    if has_label(Labelled::Host, request.host, member) && !is_label(text.as_str()) {
        return Err(EncodeFault::BadHostLabel(member.name.copy(alloc)?));
    }
    Ok(())
}

fn fills_label(request: &Request, member: &Member) -> bool
    ensures { result ≡ fills_label (asked request.now) member.now }
{
    has_label(Labelled::Host, request.host, member)
        || has_label(Labelled::Path, request.path, member)
}

/// Whether a time of a member has no text in a part of the request where it is sent.
fn is_lost_member(request: &Request, member: &Member) -> bool
    ensures { result ≡ is_lost_member (asked request.now) member.now }
{
    if fills_label(request, member) && is_lost_as(request, TimeForm::Iso8601, member) {
        return true;
    }
    match usual_form(request, member) {
        Some(usual) => is_lost_as(request, usual, member),
        None => false,
    }
}

/// The form of times that is usual where a member is sent, labels aside; None where it isn't sent.
fn usual_form(request: &Request, member: &Member) -> Option<TimeForm>
    ensures { result ≡ usual_form (asked request.now) member.now }
{
    if is_json(request.model) {
        return Some(TimeForm::Unix);
    }
    match member.location {
        Some(Location::Querystring) => Some(TimeForm::Iso8601),
        Some(Location::Header) if !member.json_value => Some(TimeForm::Rfc822),
        Some(Location::Headers) => Some(TimeForm::Rfc822),
        Some(_) => None,
        None => body_form(request, member),
    }
}

/// The same of a member without a location: beside a named payload it isn't sent.
fn body_form(request: &Request, member: &Member) -> Option<TimeForm>
    ensures { result ≡ body_form (payload_at request.now.model.now.shapes request.now.op.now.input) member.now }
{
    match payload_of(request.model, request.op) {
        Some(payload) if payload.name != member.name => None,
        _ => Some(TimeForm::Unix),
    }
}

/// Whether a time of a member has no text, with the form that is usual in a part of the request.
fn is_lost_as(request: &Request, usual: TimeForm, member: &Member) -> bool
    ensures { result ≡ is_lost_as (asked request.now) usual member.now }
{
    match value_of(request.fields, &member.name) {
        Some(value) => is_lost(request.model, usual, Slot::of_member(member), value),
        None => false,
    }
}
