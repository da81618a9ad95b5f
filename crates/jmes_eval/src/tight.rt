//! The text of a document without blanks.
ghost use Rattle.std.specs.Prelude.{◌≡◌, ◌++◌, map, codes, IfOk, OnOk};
ghost use Rattle.json_doc.specs.Compact.{compact_of};
ghost use Rattle.texts.specs.Joined.{joined};
ghost use Rattle.json_doc.specs.declared.doc.Doc.TheVariants.{Str};
ghost use Rattle.jmes_eval.specs.Texts.{to_string_of, tight_of, tight_pair};

use json_doc::{Doc, Layout, OutOfMemory, Pair, Text, push_compact, push_quoted};
use std::alloc::Global;

/// A text as it is, any other value as its text without blanks behind `,` and `:`.
pub(crate) fn to_string(alloc: Global, doc: &Doc) -> Result<Doc, OutOfMemory>
    ensures { IfOk result (λ made. made ≡ to_string_of doc.now) }
{
    if let Doc::Str(text) = doc {
        return Ok(Doc::Str(text.copy(alloc)?));
    }
    let mut out = Text::new(alloc);
    write_doc(&mut out, doc)?;
    Ok(Doc::Str(out))
}

#[cycle(tight)]
fn write_doc(out: &mut Text, doc: &Doc) -> Result<(), OutOfMemory>
    ensures { OnOk result (out.new ≡ out.old ++ tight_of doc.now) }
{
    match doc {
        Doc::Items(items) => {
            out.push('[')?;
            write_items(out, items.as_slice())?;
            out.push(']')
        }
        Doc::Fields(fields) => {
            out.push('{')?;
            write_fields(out, fields.as_slice())?;
            out.push('}')
        }
        Doc::Null => out.push_ascii("null"),
        Doc::Flag(_) => push_compact(out, doc),
        Doc::Number(_) => push_compact(out, doc),
        Doc::Str(_) => push_compact(out, doc),
    }
}

#[cycle(tight)]
fn write_items(out: &mut Text, items: &[Doc]) -> Result<(), OutOfMemory>
    ensures { OnOk result (out.new ≡ out.old ++ joined (codes ",") (map tight_of items.now)) }
{
    let mut is_first = true;
    for item in items {
        if !is_first {
            out.push(',')?;
        }
        write_doc(out, item)?;
        is_first = false;
    }
    Ok(())
}

#[cycle(tight)]
fn write_fields(out: &mut Text, fields: &[Pair<Doc>]) -> Result<(), OutOfMemory>
    ensures { OnOk result (out.new ≡ out.old ++ joined (codes ",") (map tight_pair fields.now)) }
{
    let mut is_first = true;
    for field in fields {
        if !is_first {
            out.push(',')?;
        }
        write_key(out, &field.key)?;
        write_doc(out, &field.value)?;
        is_first = false;
    }
    Ok(())
}

fn write_key(out: &mut Text, key: &Text) -> Result<(), OutOfMemory>
    ensures { OnOk result (out.new ≡ (out.old ++ compact_of (Str key.now)) ++ codes ":") }
{
    push_quoted(out, key.as_str(), Layout::Compact)?;
    out.push(':')
}
