ghost use Rattle.std.specs.Prelude.{◌≡◌, ◌++◌, ◌≤◌, IfOk, OnOk, encode_utf8_all};
ghost use Rattle.json_doc.specs.Compact.{compact_of};
ghost use Rattle.json_doc.specs.Documents.{depth_of};
ghost use Rattle.json_doc.specs.Grammar.{Reads};
ghost use Rattle.json_doc.specs.Indented.{indented_of};

use crate::layout::Layout;
use crate::printer::write_doc;
use crate::{Doc, OutOfMemory, Text};
use std::alloc::Global;

/// The text of a document on one line of printable ASCII, with one blank behind each `,` and `:`.
/// `read` gives the document again, if it nests at most 100 deep.
pub fn compact(alloc: Global, doc: &Doc) -> Result<Text, OutOfMemory>
    ensures text { IfOk result (λ text. text ≡ compact_of doc.now) }
    ensures reads { IfOk result (λ text. depth_of doc.now ≤ 100 → Reads (encode_utf8_all text) doc.now) }
{
    let mut text = Text::new(alloc);
    write_doc(&mut text, doc, Layout::Compact, 0)?;
    Ok(text)
}

/// The text of a document with each item on a line of its own, four blanks a level; `{}` and `[]`
/// for empty ones. Only `"`, `\` and control characters are escaped. `read` gives the document again,
/// if it nests at most 100 deep.
pub fn indented(alloc: Global, doc: &Doc) -> Result<Text, OutOfMemory>
    ensures text { IfOk result (λ text. text ≡ indented_of doc.now) }
    ensures reads { IfOk result (λ text. depth_of doc.now ≤ 100 → Reads (encode_utf8_all text) doc.now) }
{
    let mut text = Text::new(alloc);
    write_doc(&mut text, doc, Layout::Indented, 0)?;
    Ok(text)
}

/// Puts the text of a document on one line, as `compact` gives it.
pub fn push_compact(out: &mut Text, doc: &Doc) -> Result<(), OutOfMemory>
    ensures { OnOk result (out.new ≡ out.old ++ compact_of doc.now) }
{
    write_doc(out, doc, Layout::Compact, 0)
}
