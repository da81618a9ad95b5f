//! Which values a shape takes, before their parts and sizes are looked at.
ghost use Rattle.std.specs.Prelude.{◌≡◌, pos};
ghost use Rattle.typed_value.specs.declared.typed.Typed.{out-Typed};
ghost use Rattle.typed_value.specs.Kinds.{is_string, is_whole, is_boolean, is_blob, is_timestamp, is_list, is_map, is_structure, is_in_years, is_document, takes_by_kind, takes, is_enough};

use crate::Typed;
use service_model::{Kind, Shape};

/// 0001-01-01T00:00:00Z in microseconds.
const FIRST_MOMENT: i64 = -62_135_596_800_000_000;

/// The end of the year 9999 in microseconds.
const MOMENTS_END: i64 = 253_402_300_800_000_000;

/// Whether a shape, or a header that holds a document, takes the value as it is.
pub(crate) fn takes(is_json: bool, shape: &Shape, value: &Typed) -> bool
    ensures { result ≡ takes is_json shape.now (out-Typed value.now) }
{
    takes_by_kind(shape.kind, value) || ((is_json || shape.document) && is_document(value))
}

fn takes_by_kind(kind: Kind, value: &Typed) -> bool
    ensures { result ≡ takes_by_kind kind (out-Typed value.now) }
{
    match value {
        Typed::Text(_) => is_string(kind),
        Typed::Int(_) => is_whole(kind),
        Typed::Flag(_) => is_boolean(kind),
        Typed::Blob(_) => is_blob(kind),
        Typed::Moment(moment) => is_timestamp(kind) && is_in_years(*moment),
        Typed::Items(_) => is_list(kind),
        Typed::Fields(_) => is_structure(kind) || is_map(kind),
        Typed::Null | Typed::Number(_) | Typed::Any(_) => false,
    }
}

fn is_document(value: &Typed) -> bool
    ensures { result ≡ is_document (out-Typed value.now) }
{
    matches!(value, Typed::Any(_))
}

/// Whether a moment lies in the years 0001 to 9999.
fn is_in_years(moment: i64) -> bool
    ensures { result ≡ is_in_years moment }
{
    FIRST_MOMENT <= moment && moment < MOMENTS_END
}

/// Whether a number is no less than the least one, where there is one.
pub(crate) fn is_enough(least: Option<i64>, number: i64) -> bool
    ensures { result ≡ is_enough least number }
{
    match least {
        Some(least) => least <= number,
        None => true,
    }
}

/// Whether a count is no less than the least one, where there is one.
pub(crate) fn is_long_enough(least: Option<i64>, count: u64) -> bool
    ensures { result ≡ is_enough least (pos count) }
{
    match least {
        Some(least) => i128::from(least) <= i128::from(count),
        None => true,
    }
}

pub(crate) fn is_string(kind: Kind) -> bool
    ensures { result ≡ is_string kind }
{
    matches!(kind, Kind::Str)
}

pub(crate) fn is_whole(kind: Kind) -> bool
    ensures { result ≡ is_whole kind }
{
    matches!(kind, Kind::Integer | Kind::Long)
}

pub(crate) fn is_boolean(kind: Kind) -> bool
    ensures { result ≡ is_boolean kind }
{
    matches!(kind, Kind::Boolean)
}

fn is_blob(kind: Kind) -> bool
    ensures { result ≡ is_blob kind }
{
    matches!(kind, Kind::Blob)
}

fn is_timestamp(kind: Kind) -> bool
    ensures { result ≡ is_timestamp kind }
{
    matches!(kind, Kind::Timestamp)
}

pub(crate) fn is_list(kind: Kind) -> bool
    ensures { result ≡ is_list kind }
{
    matches!(kind, Kind::List)
}

pub(crate) fn is_map(kind: Kind) -> bool
    ensures { result ≡ is_map kind }
{
    matches!(kind, Kind::Map)
}

pub(crate) fn is_structure(kind: Kind) -> bool
    ensures { result ≡ is_structure kind }
{
    matches!(kind, Kind::Structure)
}
