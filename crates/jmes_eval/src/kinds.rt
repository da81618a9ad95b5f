//! Documents by their kinds.
ghost use Rattle.std.specs.Prelude.{◌≡◌};
ghost use Rattle.texts.specs.Calls.{Answers};
ghost use Rattle.jmes_eval.specs.Answers.{is_memory, due};
ghost use Rattle.jmes_eval.specs.Kinds.{number_of, text_of, items_of, fields_of, is_null, truth_of, type_of};

use crate::QueryFault;
use json_doc::{Decimal, Doc, List, Pairs, Text};

/// The number of a document that is one.
pub(crate) fn number(doc: &Doc) -> Result<Decimal, QueryFault>
    ensures { Answers is_memory (λ x. x) result (due (number_of doc.now)) }
{
    match doc {
        Doc::Number(n) => Ok(*n),
        _ => Err(QueryFault::TypeFault),
    }
}

/// The text of a document that is one.
pub(crate) fn text(doc: &Doc) -> Result<&Text, QueryFault>
    ensures { Answers is_memory (λ text. text.now) result (due (text_of doc.now)) }
{
    match doc {
        Doc::Str(text) => Ok(text),
        _ => Err(QueryFault::TypeFault),
    }
}

/// The elements of a list.
pub(crate) fn items(doc: &Doc) -> Result<&[Doc], QueryFault>
    ensures { Answers is_memory (λ items. items.now) result (due (items_of doc.now)) }
{
    match doc {
        Doc::Items(items) => Ok(items.as_slice()),
        _ => Err(QueryFault::TypeFault),
    }
}

/// The pairs of an object.
pub(crate) fn fields(doc: &Doc) -> Result<&Pairs<Doc>, QueryFault>
    ensures { Answers is_memory (λ fields. fields.now) result (due (fields_of doc.now)) }
{
    match doc {
        Doc::Fields(fields) => Ok(fields),
        _ => Err(QueryFault::TypeFault),
    }
}

pub(crate) fn is_null(doc: &Doc) -> bool
    ensures { result ≡ is_null doc.now }
{
    match doc {
        Doc::Null => true,
        _ => false,
    }
}

/// Whether a document counts as true: null, false, and empty texts, lists and objects don't.
pub(crate) fn is_true(doc: &Doc) -> bool
    ensures { result ≡ truth_of doc.now }
{
    match doc {
        Doc::Null => false,
        Doc::Flag(flag) => *flag,
        Doc::Number(_) => true,
        Doc::Str(text) => !text.is_empty(),
        Doc::Items(items) => !items.is_empty(),
        Doc::Fields(fields) => fields.len() > 0,
    }
}

/// The name of a document's kind.
pub(crate) fn type_name(doc: &Doc) -> &'static str
    ensures { result.now ≡ type_of doc.now }
{
    match doc {
        Doc::Null => "null",
        Doc::Flag(_) => "boolean",
        Doc::Number(_) => "number",
        Doc::Str(_) => "string",
        Doc::Items(_) => "array",
        Doc::Fields(_) => "object",
    }
}
