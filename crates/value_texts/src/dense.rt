//! Documents without blanks.
ghost use Rattle.std.specs.Prelude.{◌≡◌, ◌++◌, map, codes, OnOk};
ghost use Rattle.texts.specs.Joined.{joined};
ghost use Rattle.value_texts.specs.Dense.{dense_of, dense_field};

use crate::json_parts::push_quoted;
use json_doc::{Doc, OutOfMemory, Pair, Text, push_compact};

/// Puts a document without the blanks behind `,` and `:`.
#[cycle(dense)]
pub fn push_dense(out: &mut Text, doc: &Doc) -> Result<(), OutOfMemory>
    ensures { OnOk result (out.new ≡ out.old ++ dense_of doc.now) }
{
    match doc {
        Doc::Items(items) => {
            out.push('[')?;
            push_items(out, items.as_slice())?;
            out.push(']')
        }
        Doc::Fields(fields) => {
            out.push('{')?;
            push_fields(out, fields.as_slice())?;
            out.push('}')
        }
        _ => push_compact(out, doc),
    }
}

#[cycle(dense)]
fn push_items(out: &mut Text, items: &[Doc]) -> Result<(), OutOfMemory>
    ensures { OnOk result (out.new ≡ out.old ++ joined (codes ",") (map dense_of items.now)) }
{
    let mut before = "";
    for item in items {
        out.push_ascii(before)?;
        push_dense(out, item)?;
        before = ",";
    }
    Ok(())
}

#[cycle(dense)]
fn push_fields(out: &mut Text, fields: &[Pair<Doc>]) -> Result<(), OutOfMemory>
    ensures { OnOk result (out.new ≡ out.old ++ joined (codes ",") (map dense_field (map (λ p. record { key = p.key; value = dense_of p.value }) fields.now))) }
{
    let mut before = "";
    for field in fields {
        out.push_ascii(before)?;
        push_quoted(out, &field.key)?;
        out.push_ascii(":")?;
        push_dense(out, &field.value)?;
        before = ",";
    }
    Ok(())
}
