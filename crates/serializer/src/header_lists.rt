//! Lists in the value of a header.
ghost use Rattle.std.specs.Prelude.{◌≡◌, ◌++◌, map, codes, IfOk, OnOk};
ghost use Rattle.std.specs.List.{flat_map};
ghost use Rattle.serializer.specs.HeaderTexts.{is_mark, is_quoted, quoted_character, list_item, item_text, list_value};
ghost use Rattle.texts.specs.Joined.{joined};

use crate::queries::item_of;
use json_doc::{OutOfMemory, Text};
use service_model::{Model, ShapeId, TimeForm};
use std::alloc::Global;
use typed_value::Typed;
use value_texts::{Slot, text_at};

/// The items of a list with a comma between each two.
pub(crate) fn list_value(
    alloc: Global,
    model: &Model,
    list: ShapeId,
    items: &[Typed],
) -> Result<Text, OutOfMemory>
    ensures { IfOk result (λ text. text ≡ list_value model.now.shapes list items.now) }
{
    match item_of(model, list) {
        Some(shape) => joined_items(alloc, model, Slot::of_shape(shape), items),
        None => Ok(Text::new(alloc)),
    }
}

fn joined_items(
    alloc: Global,
    model: &Model,
    slot: Slot,
    items: &[Typed],
) -> Result<Text, OutOfMemory>
    ensures { IfOk result (λ text. text ≡ joined (codes ",") (map (item_text model.now.shapes slot) items.now)) }
{
    let mut out = Text::new(alloc);
    let mut before = "";
    for item in items {
        out.push_ascii(before)?;
        let text = text_at(alloc, model, TimeForm::Rfc822, slot, item)?;
        push_list_item(&mut out, &text)?;
        before = ",";
    }
    Ok(out)
}

/// Puts an item, in quotation marks where it holds a comma or a quotation mark (RFC 9110, section 5.6.4).
fn push_list_item(out: &mut Text, text: &Text) -> Result<(), OutOfMemory>
    ensures { OnOk result (out.new ≡ out.old ++ list_item text.now) }
{
    if !must_be_quoted(text) {
        return out.push_str(text.as_str());
    }
    out.push('"')?;
    push_marked(out, text)?;
    out.push('"')
}

/// Puts a text with `\` before each quotation mark and before itself.
fn push_marked(out: &mut Text, text: &Text) -> Result<(), OutOfMemory>
    ensures { OnOk result (out.new ≡ out.old ++ flat_map quoted_character text.now) }
{
    for c in text.as_str().chars() {
        push_character(out, c)?;
    }
    Ok(())
}

fn push_character(out: &mut Text, c: char) -> Result<(), OutOfMemory>
    ensures { OnOk result (out.new ≡ out.old ++ quoted_character c) }
{
    if c == '"' || c == '\\' {
        out.push('\\')?;
    }
    out.push(c)
}

/// Whether a comma or a quotation mark stands in a text.
fn must_be_quoted(text: &Text) -> bool
    ensures { result ≡ is_quoted text.now }
{
    for c in text.as_str().chars() {
        if is_mark(c) {
            return true;
        }
    }
    false
}

fn is_mark(c: char) -> bool
    ensures { result ≡ is_mark c }
{
    c == ',' || c == '"'
}
