ghost use Rattle.std.specs.Prelude.{◌≡◌, ℕ, List, [], Some, IsTrue, IfOk, MatchResult, codes, option_map};
ghost use Rattle.std.specs.List.{list_all};
ghost use Rattle.std.specs.Option.{option_copied};
ghost use Rattle.std.specs.Str.{str_eq_ignore_ascii_case};
ghost use Rattle.texts.specs.Ascii.{is_ascii_text};
ghost use Rattle.json_doc.specs.Grammar.{put_all};
ghost use Rattle.aws_world.specs.Headers.{header_of};
ghost use Rattle.aws_main.specs.declared.causes.Unbuilt.TheVariants.{OutOfMemory as no_memory};
ghost use Rattle.aws_main.specs.Finding.{Finds};
ghost use Rattle.aws_main.specs.Output.{IsBodyText, IsOutput, fields_of, has_kind, is_plain_body, is_text, known_of, printed, text_of_body};

use crate::causes::Unbuilt;
use crate::plain_operations::{PlainMember, PlainOperation};
use aws_world::{Reply, header};
use json_doc::{Doc, List, OutOfMemory, Pairs, ReadFault, Text, copy, indented, read};
use std::alloc::Global;

/// What is printed of a good reply: its known members in the model's order.
pub fn output(alloc: Global, operation: &PlainOperation, reply: &Reply) -> Result<Text, Unbuilt>
    ensures printed { IfOk result (λ text. IsOutput operation.now reply.now text) }
    ensures only { (text : List ℕ) → IsOutput operation.now reply.now text
        → MatchResult result (λ made. made ≡ text) (λ e. e ≡ no_memory) }
{
    if reply.status != 200 || !is_plain(reply) {
        return Err(Unbuilt::NotBuilt);
    }
    match &operation.output {
        Some(members) => body_text(alloc, members, reply.body.as_slice()),
        None => Ok(Text::new(alloc)),
    }
}

/// Whether a reply's body has no coding.
#[tactic(auto, unfolding(crate::specs::Output::is_plain_body))]
fn is_plain(reply: &Reply) -> bool
    ensures { result ≡ is_plain_body reply.now }
{
    match coding(reply) {
        None => true,
        Some(coding) => coding.is("") || is_name(coding, "identity"),
    }
}

fn coding(reply: &Reply) -> Option<&Text>
    ensures { option_copied result ≡ header_of (codes "Content-Encoding") reply.now.headers }
{
    header(reply, "Content-Encoding")
}

/// Whether a text is a name in ASCII, without regard to the case of letters.
fn is_name(text: &Text, name: &str) -> bool
    requires { IsTrue (is_ascii_text name.now) }
    ensures { result ≡ str_eq_ignore_ascii_case text.now name.now }
{
    text.as_str().eq_ignore_ascii_case(name)
}

/// What is printed of a body in JSON.
fn body_text(alloc: Global, members: &List<PlainMember>, body: &[u8]) -> Result<Text, Unbuilt>
    ensures printed { IfOk result (λ text. IsBodyText (Some members.now) body.now text) }
    ensures only { (text : List ℕ) → IsBodyText (Some members.now) body.now text
        → MatchResult result (λ made. made ≡ text) (λ e. e ≡ no_memory) }
{
    match read(alloc, body) {
        Ok(doc) => document_text(alloc, members, &doc),
        Err(ReadFault::OutOfMemory) => Err(Unbuilt::OutOfMemory),
        Err(ReadFault::Syntax(_)) => Err(Unbuilt::NotBuilt),
        Err(ReadFault::TooDeep(_)) => Err(Unbuilt::NotBuilt),
        Err(ReadFault::NumberTooWide(_)) => Err(Unbuilt::NotBuilt),
    }
}

#[tactic(auto, unfolding(crate::specs::Output::text_of_body))]
fn document_text(alloc: Global, members: &List<PlainMember>, body: &Doc) -> Result<Text, Unbuilt>
    ensures { Finds (λ text. text) (text_of_body members.now body.now) result }
{
    let pairs = object(body)?;
    let known = known_members(alloc, members, pairs)?;
    Ok(lines(alloc, known)?)
}

/// The members of a document that is to be an object.
#[tactic(auto, unfolding(crate::specs::Output::fields_of))]
fn object(doc: &Doc) -> Result<&Pairs<Doc>, Unbuilt>
    ensures { Finds (λ pairs. pairs.now) (fields_of doc.now) result }
{
    match doc {
        Doc::Fields(pairs) => Ok(pairs),
        _ => Err(Unbuilt::NotBuilt),
    }
}

/// The members of a body that the operation's output knows.
fn known_members(
    alloc: Global,
    members: &List<PlainMember>,
    body: &Pairs<Doc>,
) -> Result<Pairs<Doc>, Unbuilt>
    ensures { Finds (λ known. known) (option_map (put_all []) (known_of body.now members.now)) result }
{
    let mut known = Pairs::new(alloc);
    for member in members.as_slice() {
        let Some(value) = body.get(member.name.as_str()) else {
            continue;
        };
        if !has_kind(member.is_list, value) {
            return Err(Unbuilt::NotBuilt);
        }
        known.put(member.name.copy(alloc)?, copy(alloc, value)?)?;
    }
    Ok(known)
}

/// Whether a value is a text for a string, or a list of texts for a list.
#[tactic(auto, unfolding(crate::specs::Output::has_kind))]
fn has_kind(is_list: bool, value: &Doc) -> bool
    ensures { result ≡ has_kind is_list value.now }
{
    match value {
        Doc::Str(_) => !is_list,
        Doc::Items(items) => is_list && are_texts(items.as_slice()),
        _ => false,
    }
}

fn are_texts(values: &[Doc]) -> bool
    ensures { result ≡ list_all is_text values.now }
{
    for value in values {
        if !is_text(value) {
            return false;
        }
    }
    true
}

#[tactic(auto, unfolding(crate::specs::Output::is_text))]
fn is_text(value: &Doc) -> bool
    ensures { result ≡ is_text value.now }
{
    match value {
        Doc::Str(_) => true,
        _ => false,
    }
}

/// The indented text with a line end; nothing for an empty object.
fn lines(alloc: Global, known: Pairs<Doc>) -> Result<Text, OutOfMemory>
    ensures { IfOk result (λ text. text ≡ printed known) }
{
    if known.len() == 0 {
        return Ok(Text::new(alloc));
    }
    let mut text = indented(alloc, &Doc::Fields(known))?;
    text.push('\n')?;
    Ok(text)
}
