//! What stands at a key of a document, whatever it is.
ghost use Rattle.std.specs.Prelude.{◌≡◌, IfOk, IsTrue};
ghost use Rattle.std.specs.Option.{option_copied};
ghost use Rattle.std.specs.Str.{chars};
ghost use Rattle.texts.specs.Ascii.{is_ascii_text};
ghost use Rattle.rule_terms.specs.Seen.{items_at, text_at, text_or_empty, text_in};

use crate::attributes::member;
use json_doc::Doc;
use std::alloc::Global;
use texts::{OutOfMemory, Text};

/// The items of the list at a key: none where there is no list.
#[tactic(auto, using(texts::proofs::Texts::chars_ascii))]
pub fn items_at<'a>(doc: &'a Doc, key: &str) -> &'a [Doc]
    requires { IsTrue (is_ascii_text key.now) }
    ensures { result.now ≡ items_at key.now doc.now }
{
    match member(doc, key) {
        Some(Doc::Items(items)) => items.as_slice(),
        _ => &[],
    }
}

/// The text at a key: the empty one where there is none.
#[tactic(auto, using(texts::proofs::Texts::chars_ascii))]
pub fn text_at<'a>(doc: &'a Doc, key: &str) -> &'a str
    requires { IsTrue (is_ascii_text key.now) }
    ensures { chars result.now ≡ text_at key.now doc.now }
{
    match member(doc, key) {
        Some(Doc::Str(text)) => text.as_str(),
        _ => "",
    }
}

/// An equal text, else the empty one.
pub fn text_or_empty(alloc: Global, doc: &Doc) -> Result<Text, OutOfMemory>
    ensures { IfOk result (λ text. text ≡ text_or_empty doc.now) }
{
    match doc {
        Doc::Str(text) => text.copy(alloc),
        _ => Ok(Text::new(alloc)),
    }
}

/// An equal text, where a document is one.
pub fn copied_text(alloc: Global, doc: Option<&Doc>) -> Result<Option<Text>, OutOfMemory>
    ensures { IfOk result (λ text. text ≡ text_in (option_copied doc.entry)) }
{
    match doc {
        Some(Doc::Str(text)) => Ok(Some(text.copy(alloc)?)),
        _ => Ok(None),
    }
}
