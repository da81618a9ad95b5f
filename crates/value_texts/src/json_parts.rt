//! Parts of JSON texts.
ghost use Rattle.std.specs.Prelude.{◌≡◌, ◌++◌, OnOk};
ghost use Rattle.value_texts.specs.Quoted.{quoted};

use json_doc::{Layout, OutOfMemory, Text};

/// Puts a text in quotation marks.
pub fn push_quoted(out: &mut Text, text: &Text) -> Result<(), OutOfMemory>
    ensures { OnOk result (out.new ≡ out.old ++ quoted text.now) }
{
    json_doc::push_quoted(out, text.as_str(), Layout::Compact)
}
