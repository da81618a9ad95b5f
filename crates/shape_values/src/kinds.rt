ghost use Rattle.std.specs.Prelude.{◌≡◌};
ghost use Rattle.typed_value.specs.Kinds.{is_whole, is_boolean, is_blob, is_timestamp, is_list, is_map, is_structure, is_header};
ghost use Rattle.shape_values.specs.Places.{is_float};

use service_model::{Kind, Location};

pub fn is_whole(kind: Kind) -> bool
    ensures { result ≡ is_whole kind }
{
    matches!(kind, Kind::Integer | Kind::Long)
}

pub fn is_boolean(kind: Kind) -> bool
    ensures { result ≡ is_boolean kind }
{
    matches!(kind, Kind::Boolean)
}

pub fn is_blob(kind: Kind) -> bool
    ensures { result ≡ is_blob kind }
{
    matches!(kind, Kind::Blob)
}

pub fn is_timestamp(kind: Kind) -> bool
    ensures { result ≡ is_timestamp kind }
{
    matches!(kind, Kind::Timestamp)
}

pub fn is_list(kind: Kind) -> bool
    ensures { result ≡ is_list kind }
{
    matches!(kind, Kind::List)
}

pub fn is_map(kind: Kind) -> bool
    ensures { result ≡ is_map kind }
{
    matches!(kind, Kind::Map)
}

pub fn is_structure(kind: Kind) -> bool
    ensures { result ≡ is_structure kind }
{
    matches!(kind, Kind::Structure)
}

/// Whether values of the kind are fractions in binary.
pub fn is_float(kind: Kind) -> bool
    ensures { result ≡ is_float kind }
{
    matches!(kind, Kind::Float | Kind::Double)
}

pub fn is_header(location: Option<Location>) -> bool
    ensures { result ≡ is_header location }
{
    matches!(location, Some(Location::Header))
}
