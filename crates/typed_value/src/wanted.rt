ghost use Rattle.std.specs.Prelude.{◌≡◌};
ghost use Rattle.typed_value.specs.Kinds.{is_header};
ghost use Rattle.typed_value.specs.Places.{of_shape, of_member};

use service_model::{Location, Member, ShapeId};

/// What is wanted of a value: the shape, and whether it stands in a header that holds a document.
#[derive(Clone, Copy, Debug)]
pub struct Wanted {
    pub(crate) shape: ShapeId,
    pub(crate) is_json: bool,
}

impl Wanted {
    pub(crate) fn of_shape(shape: ShapeId) -> Wanted
        ensures { result ≡ of_shape shape }
    {
        Wanted {
            shape,
            is_json: false,
        }
    }

    pub(crate) fn of_member(member: &Member) -> Wanted
        ensures { result ≡ of_member member.now }
    {
        Wanted {
            shape: member.shape,
            is_json: member.json_value && is_header(member.location),
        }
    }
}

fn is_header(location: Option<Location>) -> bool
    ensures { result ≡ is_header location }
{
    matches!(location, Some(Location::Header))
}
