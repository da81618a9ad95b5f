//! Places in a document.
ghost use Rattle.std.specs.Option.{option_copied};
ghost use Rattle.std.specs.Prelude.{◌≡◌};
ghost use Rattle.texts.specs.Keys.{value_at};
ghost use Rattle.jmes_eval.specs.Meaning.{field_of, index_of};
ghost use Rattle.jmes_eval.specs.Orders.{doc_or_null};
ghost use Rattle.jmes_eval.specs.Inside.{seen_doc};
ghost use Rattle.jmes_eval.specs.Slices.{element_at};

use crate::seen::Seen;
use crate::slices::{element_at, place_in};
use jmes_syntax::Whole;
use json_doc::{Doc, Pair, Text};

/// The value at a name, or null.
pub(crate) fn field_at<'a>(name: &Text, doc: &'a Doc) -> Seen<'a>
    ensures { seen_doc result ≡ field_of name.now doc.now }
{
    match doc {
        Doc::Fields(fields) => seen(fields.get(name.as_str())),
        _ => Seen::Made(Doc::Null),
    }
}

/// The element at a place, or null.
pub(crate) fn index_at<'a>(n: Whole, doc: &'a Doc) -> Seen<'a>
    ensures { seen_doc result ≡ index_of n doc.now }
{
    match doc {
        Doc::Items(items) => seen(element_at(n, items.as_slice())),
        _ => Seen::Made(Doc::Null),
    }
}

/// A place, or null.
fn seen(place: Option<&Doc>) -> Seen<'_>
    ensures { seen_doc result ≡ doc_or_null (option_copied place.entry) }
{
    match place {
        Some(place) => Seen::At(place),
        None => Seen::Made(Doc::Null),
    }
}

/// The value at a name, or null, given away by a document.
pub(crate) fn field_of(name: &Text, doc: Doc) -> Doc
    ensures { result ≡ field_of name.now doc }
{
    match doc {
        Doc::Fields(fields) => value_of(name, fields.into_vec()),
        _ => Doc::Null,
    }
}

fn value_of(name: &Text, fields: Vec<Pair<Doc>>) -> Doc
    ensures { result ≡ doc_or_null (value_at name.now fields.items) }
{
    for field in fields {
        if field.key == *name {
            return field.value;
        }
    }
    Doc::Null
}

/// The element at a place, or null, given away by a document.
pub(crate) fn index_of(n: Whole, doc: Doc) -> Doc
    ensures { result ≡ index_of n doc }
{
    match doc {
        Doc::Items(items) => item_of(n, items.into_vec()),
        _ => Doc::Null,
    }
}

fn item_of(n: Whole, items: Vec<Doc>) -> Doc
    ensures { result ≡ doc_or_null (element_at n items.items) }
{
    let mut items = items;
    match place_in(n, items.len()) {
        Some(at) => items.remove(at),
        None => Doc::Null,
    }
}
