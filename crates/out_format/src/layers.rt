ghost use Rattle.std.specs.Prelude.{◌≡◌, IfOk, codes, if◌then◌else◌};
ghost use Rattle.std.specs.List.{list_any, list_all};
ghost use Rattle.json_doc.specs.declared.doc.Doc.{out-Doc};
ghost use Rattle.out_format.specs.Layers.{scalar_of, is_scalar, is_object, items_in, fields_in};

use json_doc::{Doc, OutOfMemory, Pair, Text, compact};
use std::alloc::Global;

/// The text of a scalar; a list and an object have none.
pub(crate) fn scalar_text(alloc: Global, doc: &Doc) -> Result<Option<Text>, OutOfMemory>
    ensures { IfOk result (λ text. text ≡ scalar_of doc.now) }
{
    match doc {
        Doc::Null => Ok(Some(Text::from_str(alloc, "None")?)),
        Doc::Flag(flag) => Ok(Some(flag_text(alloc, *flag)?)),
        Doc::Number(_) => Ok(Some(compact(alloc, doc)?)),
        Doc::Str(text) => Ok(Some(text.copy(alloc)?)),
        Doc::Items(_) => Ok(None),
        Doc::Fields(_) => Ok(None),
    }
}

fn flag_text(alloc: Global, flag: bool) -> Result<Text, OutOfMemory>
    ensures { IfOk result (λ text. text ≡ (if flag then codes "True" else codes "False")) }
{
    if flag {
        Text::from_str(alloc, "True")
    } else {
        Text::from_str(alloc, "False")
    }
}

pub(crate) fn is_scalar(doc: &Doc) -> bool
    ensures { result ≡ is_scalar (out-Doc doc.now) }
{
    match doc {
        Doc::Null => true,
        Doc::Flag(_) => true,
        Doc::Number(_) => true,
        Doc::Str(_) => true,
        Doc::Items(_) => false,
        Doc::Fields(_) => false,
    }
}

pub(crate) fn is_object(doc: &Doc) -> bool
    ensures { result ≡ is_object (out-Doc doc.now) }
{
    match doc {
        Doc::Null => false,
        Doc::Flag(_) => false,
        Doc::Number(_) => false,
        Doc::Str(_) => false,
        Doc::Items(_) => false,
        Doc::Fields(_) => true,
    }
}

/// Whether one of these is an object.
pub(crate) fn has_object(docs: &[Doc]) -> bool
    ensures { result ≡ list_any (λ doc. is_object (out-Doc doc)) docs.now }
{
    docs.iter().any(|doc| is_object(doc))
}

/// Whether all of these are scalars.
pub(crate) fn are_scalars(docs: &[Doc]) -> bool
    ensures { result ≡ list_all (λ doc. is_scalar (out-Doc doc)) docs.now }
{
    docs.iter().all(|doc| is_scalar(doc))
}

/// The items of a list; another document has none.
pub(crate) fn items_of(doc: &Doc) -> &[Doc]
    ensures { result.now ≡ items_in (out-Doc doc.now) }
{
    match doc {
        Doc::Null => &[],
        Doc::Flag(_) => &[],
        Doc::Number(_) => &[],
        Doc::Str(_) => &[],
        Doc::Items(items) => items.as_slice(),
        Doc::Fields(_) => &[],
    }
}

/// The members of an object; another document has none.
pub(crate) fn fields_of(doc: &Doc) -> &[Pair<Doc>]
    ensures { result.now ≡ fields_in (out-Doc doc.now) }
{
    match doc {
        Doc::Null => &[],
        Doc::Flag(_) => &[],
        Doc::Number(_) => &[],
        Doc::Str(_) => &[],
        Doc::Items(_) => &[],
        Doc::Fields(fields) => fields.as_slice(),
    }
}
