ghost use Rattle.std.specs.Prelude.{◌≡◌, IfOk, None};
ghost use Rattle.json_doc.specs.declared.doc.Doc.{out-Doc};
ghost use Rattle.out_format.specs.Json.{json_of, is_empty_object};
ghost use Rattle.out_format.specs.Table.{table_of};
ghost use Rattle.out_format.specs.Text.{text_of};

use crate::table_sections::write_sections;
use crate::text_lines::write_lines;
use json_doc::{Doc, OutOfMemory, Text, indented};
use std::alloc::Global;

/// A document as indented JSON with a line end; an empty object prints nothing.
pub fn json(alloc: Global, doc: &Doc) -> Result<Text, OutOfMemory>
    ensures { IfOk result (λ text. text ≡ json_of doc.now) }
{
    if is_empty_object(doc) {
        return Ok(Text::new(alloc));
    }
    let mut text = indented(alloc, doc)?;
    text.push('\n')?;
    Ok(text)
}

fn is_empty_object(doc: &Doc) -> bool
    ensures { result ≡ is_empty_object (out-Doc doc.now) }
{
    match doc {
        Doc::Null => false,
        Doc::Flag(_) => false,
        Doc::Number(_) => false,
        Doc::Str(_) => false,
        Doc::Items(_) => false,
        Doc::Fields(fields) => fields.as_slice().is_empty(),
    }
}

/// A document as lines of cells with tabs between them: an object's scalars in the order of their
/// keys, a list of objects with a column for each key that is scalar in one of them.
pub fn text(alloc: Global, doc: &Doc) -> Result<Text, OutOfMemory>
    ensures { IfOk result (λ text. text ≡ text_of doc.now) }
{
    let mut out = Text::new(alloc);
    write_lines(alloc, &mut out, doc, None)?;
    Ok(out)
}

/// A document as sections with borders, each behind its path, which begins with the title.
pub fn table(alloc: Global, title: &Text, doc: &Doc) -> Result<Text, OutOfMemory>
    ensures { IfOk result (λ text. text ≡ table_of title.now doc.now) }
{
    let mut out = Text::new(alloc);
    write_sections(alloc, &mut out, title, doc)?;
    Ok(out)
}
