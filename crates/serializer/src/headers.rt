//! Members in headers.
ghost use Rattle.std.specs.Prelude.{◌≡◌, encode_utf8_all, IfOk};
ghost use Rattle.typed_value.specs.declared.typed.Typed.{out-Typed};
ghost use Rattle.value_texts.specs.Scalars.{base64_text};
ghost use Rattle.serializer.specs.HeaderTexts.{json_header, header_value, entry_header, map_headers, member_headers};

use crate::header_lists::list_value;
use crate::queries::item_of;
use json_doc::{List, OutOfMemory, Pair, Text};
use service_model::{Location, Member, Model, ShapeId, TimeForm};
use std::alloc::Global;
use typed_value::Typed;
use value_texts::{Slot, base64_text, push_dense, push_quoted, text_at};

/// Headers, each a name and a value.
pub(crate) type Headers = List<(Text, Text)>;

/// The headers of a member with its value: one, one for each entry of a map, or none.
pub(crate) fn member_headers(
    alloc: Global,
    model: &Model,
    member: &Member,
    value: &Typed,
) -> Result<Headers, OutOfMemory>
    ensures { IfOk result (λ made. made ≡ member_headers model.now.shapes member.now value.now) }
{
    match member.location {
        Some(Location::Header) => {
            let mut made = List::new(alloc);
            let text = header_value(alloc, model, member, value)?;
            made.push((member.wire.copy(alloc)?, text))?;
            Ok(made)
        }
        Some(Location::Headers) => header_map(alloc, model, member, value),
        _ => Ok(List::new(alloc)),
    }
}

/// The headers of a map: its keys behind the member's name.
fn header_map(
    alloc: Global,
    model: &Model,
    member: &Member,
    value: &Typed,
) -> Result<Headers, OutOfMemory>
    ensures { IfOk result (λ made. made ≡ map_headers model.now.shapes member.now (out-Typed value.now)) }
{
    let mut made = List::new(alloc);
    let Typed::Fields(fields) = value else {
        return Ok(made);
    };
    let Some(item) = item_of(model, member.shape) else {
        return Ok(made);
    };
    for field in fields.as_slice() {
        made.push(entry_header(alloc, model, &member.wire, item, field)?)?;
    }
    Ok(made)
}

fn entry_header(
    alloc: Global,
    model: &Model,
    prefix: &Text,
    item: ShapeId,
    field: &Pair<Typed>,
) -> Result<(Text, Text), OutOfMemory>
    ensures { IfOk result (λ made. made ≡ entry_header model.now.shapes prefix.now item field.now) }
{
    let mut name = prefix.copy(alloc)?;
    name.push_str(field.key.as_str())?;
    let slot = Slot::of_shape(item);
    let text = text_at(alloc, model, TimeForm::Rfc822, slot, &field.value)?;
    Ok((name, text))
}

/// The value of a header.
fn header_value(
    alloc: Global,
    model: &Model,
    member: &Member,
    value: &Typed,
) -> Result<Text, OutOfMemory>
    ensures { IfOk result (λ text. text ≡ header_value model.now.shapes member.now value.now) }
{
    if member.json_value {
        return json_value(alloc, value);
    }
    match value {
        Typed::Items(items) => list_value(alloc, model, member.shape, items.as_slice()),
        _ => {
            let slot = Slot::of_member(member);
            text_at(alloc, model, TimeForm::Rfc822, slot, value)
        }
    }
}

/// A document without blanks, or a text as one, in base64.
fn json_value(alloc: Global, value: &Typed) -> Result<Text, OutOfMemory>
    ensures { IfOk result (λ text. text ≡ base64_text (encode_utf8_all (json_header (out-Typed value.now)))) }
{
    let mut json = Text::new(alloc);
    match value {
        Typed::Any(doc) => push_dense(&mut json, doc)?,
        Typed::Text(text) => push_quoted(&mut json, text)?,
        _ => {}
    }
    base64_text(alloc, json.as_str().as_bytes())
}
