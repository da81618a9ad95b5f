//! What shapes ask of the values of a reply.
ghost use Rattle.std.specs.Prelude.{◌≡◌};
ghost use Rattle.json_doc.specs.declared.doc.Doc.{out-Doc};
ghost use Rattle.resp_parser.specs.Bodies.{is_string};
ghost use Rattle.resp_parser.specs.Kinds.{has_kind, is_list, is_map, is_null, is_structure, passes};

use json_doc::Doc;
use service_model::{Kind, Shape};

pub(crate) fn is_structure(kind: Kind) -> bool
    ensures { result ≡ is_structure kind }
{
    matches!(kind, Kind::Structure)
}

pub(crate) fn is_list(kind: Kind) -> bool
    ensures { result ≡ is_list kind }
{
    matches!(kind, Kind::List)
}

pub(crate) fn is_map(kind: Kind) -> bool
    ensures { result ≡ is_map kind }
{
    matches!(kind, Kind::Map)
}

pub(crate) fn is_string(kind: Kind) -> bool
    ensures { result ≡ is_string kind }
{
    matches!(kind, Kind::Str)
}

/// Whether every value passes as it is: at a scalar or a document.
pub(crate) fn passes(shape: &Shape) -> bool
    ensures { result ≡ passes shape.now }
{
    shape.document || !(is_structure(shape.kind) || (is_list(shape.kind) || is_map(shape.kind)))
}

/// Whether a value has the kind that its shape asks for. Null stands for no value of any kind.
pub(crate) fn has_kind(shape: &Shape, value: &Doc) -> bool
    ensures { result ≡ has_kind shape.now (out-Doc value.now) }
{
    match value {
        Doc::Null => true,
        Doc::Items(_) => passes(shape) || is_list(shape.kind),
        Doc::Fields(_) => passes(shape) || (is_structure(shape.kind) || is_map(shape.kind)),
        Doc::Flag(_) | Doc::Number(_) | Doc::Str(_) => passes(shape),
    }
}

pub(crate) fn is_null(value: &Doc) -> bool
    ensures { result ≡ is_null value.now }
{
    matches!(value, Doc::Null)
}
