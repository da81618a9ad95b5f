//! Identifiers of members that are to have one.
ghost use Rattle.std.specs.Prelude.{◌≡◌, IfOk, OnOk};
ghost use Rattle.typed_value.specs.declared.typed.Typed.{out-Typed};
ghost use Rattle.serializer.specs.Tokens.{lacks_token, needs_token, bytes_of, identifier, filled, with_token};

use crate::members::members_of;
use json_doc::{OutOfMemory, Pair, Pairs, Text};
use service_model::{Member, Model, Operation};
use std::alloc::Global;
use typed_value::Typed;
use uuid::{Builder, Uuid};
use value_texts::value_of;

/// Whether a member that gets an identifier where it isn't given has no value.
pub fn needs_token(model: &Model, op: &Operation, value: &Typed) -> bool
    ensures { result ≡ needs_token model.now.shapes op.now.input (out-Typed value.now) }
{
    let Typed::Fields(fields) = value else {
        return false;
    };
    for member in members_of(model, op) {
        if lacks_token(fields.as_slice(), member) {
            return true;
        }
    }
    false
}

fn lacks_token(fields: &[Pair<Typed>], member: &Member) -> bool
    ensures { result ≡ lacks_token fields.now member.now }
{
    member.token && value_of(fields, &member.name).is_none()
}

/// The value with an identifier (RFC 9562, version 4) at each such member: one for all of them, made of four
/// words whose bytes stand from the greatest to the least.
pub fn with_token(
    alloc: Global,
    model: &Model,
    op: &Operation,
    value: Typed,
    words: [u32; 4],
) -> Result<Typed, OutOfMemory>
    ensures { IfOk result (λ made. made ≡ with_token model.now.shapes op.now.input words value) }
{
    match value {
        Typed::Fields(mut fields) => {
            let text = identifier(alloc, words)?;
            fill(alloc, &mut fields, members_of(model, op), &text)?;
            Ok(Typed::Fields(fields))
        }
        other => Ok(other),
    }
}

/// Puts a text at each member that is to have an identifier and has no value.
fn fill(
    alloc: Global,
    fields: &mut Pairs<Typed>,
    members: &[Member],
    text: &Text,
) -> Result<(), OutOfMemory>
    ensures { OnOk result (fields.new ≡ filled text.now fields.old members.now) }
{
    for member in members {
        if lacks_token(fields.as_slice(), member) {
            let name = member.name.copy(alloc)?;
            fields.put(name, Typed::Text(text.copy(alloc)?))?;
        }
    }
    Ok(())
}

/// The text of the identifier.
fn identifier(alloc: Global, words: [u32; 4]) -> Result<Text, OutOfMemory>
    ensures { IfOk result (λ text. text ≡ identifier words) }
{
    let mut buffer = Uuid::encode_buffer();
    let id = Builder::from_random_bytes(bytes_of(words)).into_uuid();
    Text::from_str(alloc, id.hyphenated().encode_lower(&mut buffer))
}

fn bytes_of(words: [u32; 4]) -> [u8; 16]
    ensures { result ≡ bytes_of words }
{
    let [a, b, c, d] = words;
    let [a0, a1, a2, a3] = a.to_be_bytes();
    let [b0, b1, b2, b3] = b.to_be_bytes();
    let [c0, c1, c2, c3] = c.to_be_bytes();
    let [d0, d1, d2, d3] = d.to_be_bytes();
    [
        a0, a1, a2, a3, b0, b1, b2, b3, c0, c1, c2, c3, d0, d1, d2, d3,
    ]
}
