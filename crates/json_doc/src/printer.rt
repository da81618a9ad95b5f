ghost use Rattle.std.specs.Prelude.{◌≡◌, ◌+◌, ◌++◌, map, OnOk, IfOk};
ghost use Rattle.std.specs.List.{AllByRecursion};
ghost use Rattle.json_doc.specs.Compact.{flag_text};
ghost use Rattle.json_doc.specs.Documents.{IsProper, IsProperField};
ghost use Rattle.texts.specs.Characters.{IsText};
ghost use Rattle.json_doc.specs.Indented.{line};
ghost use Rattle.json_doc.specs.Layouts.{text_at, before_part, after_parts, parts_text, key_text, field_text};

use crate::decimal_text::write_decimal;
use crate::layout::Layout;
use crate::quoted::push_quoted;
use crate::{Doc, OutOfMemory, Pair, Text};

/// Writes a document that stands at a level of brackets.
#[cycle(printer)]
pub(crate) fn write_doc(
    out: &mut Text,
    doc: &Doc,
    layout: Layout,
    level: usize,
) -> Result<(), OutOfMemory>
    ensures text { OnOk result (out.new ≡ out.old ++ text_at layout level doc.now) }
    ensures proper { IfOk result (λ _. IsProper doc.now) }
{
    match doc {
        Doc::Null => out.push_str("null"),
        Doc::Flag(flag) => write_flag(out, *flag),
        Doc::Number(n) => write_decimal(out, *n),
        Doc::Str(text) => push_quoted(out, text.as_str(), layout),
        Doc::Items(items) => {
            out.push('[')?;
            write_items(out, items.as_slice(), layout, level)?;
            out.push(']')
        }
        Doc::Fields(fields) => {
            out.push('{')?;
            write_fields(out, fields.as_slice(), layout, level)?;
            out.push('}')
        }
    }
}

/// Writes what stands between the brackets of a list at a level.
#[cycle(printer)]
fn write_items(
    out: &mut Text,
    items: &[Doc],
    layout: Layout,
    level: usize,
) -> Result<(), OutOfMemory>
    ensures text { OnOk result
        (out.new ≡ out.old ++ parts_text layout level (map (text_at layout (level + 1)) items.now)) }
    ensures proper { IfOk result (λ _. AllByRecursion IsProper items.now) }
{
    let inside = level_inside(level)?;
    let mut is_first = true;
    for item in items {
        write_before(out, layout, inside, is_first)?;
        write_doc(out, item, layout, inside)?;
        is_first = false;
    }
    write_after(out, layout, level, items.is_empty())
}

/// Writes what stands between the braces of an object at a level.
#[cycle(printer)]
fn write_fields(
    out: &mut Text,
    fields: &[Pair<Doc>],
    layout: Layout,
    level: usize,
) -> Result<(), OutOfMemory>
    ensures text { OnOk result
        (out.new ≡ out.old ++ parts_text layout level (map (field_text layout (level + 1)) fields.now)) }
    ensures proper { IfOk result (λ _. AllByRecursion IsProperField fields.now) }
{
    let inside = level_inside(level)?;
    let mut is_first = true;
    for field in fields {
        write_before(out, layout, inside, is_first)?;
        write_key(out, &field.key, layout)?;
        write_doc(out, &field.value, layout, inside)?;
        is_first = false;
    }
    write_after(out, layout, level, fields.is_empty())
}

/// The next level. No document that fits in memory nests past the numbers of `usize`.
fn level_inside(level: usize) -> Result<usize, OutOfMemory>
    ensures { IfOk result (λ inside. inside ≡ level + 1) }
{
    level.checked_add(1).ok_or(OutOfMemory)
}

fn write_key(out: &mut Text, key: &Text, layout: Layout) -> Result<(), OutOfMemory>
    ensures text { OnOk result (out.new ≡ out.old ++ key_text layout key.now) }
    ensures key { IsText key.now }
{
    push_quoted(out, key.as_str(), layout)?;
    out.push_str(": ")
}

fn write_flag(out: &mut Text, flag: bool) -> Result<(), OutOfMemory>
    ensures { OnOk result (out.new ≡ out.old ++ flag_text flag) }
{
    if flag {
        out.push_str("true")
    } else {
        out.push_str("false")
    }
}

/// Writes what stands before a part, the first one or another.
fn write_before(
    out: &mut Text,
    layout: Layout,
    level: usize,
    is_first: bool,
) -> Result<(), OutOfMemory>
    ensures { OnOk result (out.new ≡ out.old ++ before_part layout level is_first) }
{
    match (layout, is_first) {
        (Layout::Compact, true) => Ok(()),
        (Layout::Compact, false) => out.push_str(", "),
        (Layout::Indented, true) => write_line(out, level),
        (Layout::Indented, false) => {
            out.push(',')?;
            write_line(out, level)
        }
    }
}

/// Writes what stands behind the last part.
fn write_after(
    out: &mut Text,
    layout: Layout,
    level: usize,
    is_empty: bool,
) -> Result<(), OutOfMemory>
    ensures { OnOk result (out.new ≡ out.old ++ after_parts layout level is_empty) }
{
    match (layout, is_empty) {
        (Layout::Indented, false) => write_line(out, level),
        _ => Ok(()),
    }
}

/// Begins a line with the blanks of a level.
fn write_line(out: &mut Text, level: usize) -> Result<(), OutOfMemory>
    ensures { OnOk result (out.new ≡ out.old ++ line level) }
{
    out.push('\n')?;
    for _step in 0..level {
        out.push_str("    ")?;
    }
    Ok(())
}
