//! Where a value stands.
ghost use Rattle.std.specs.Prelude.{◌≡◌, slice_get};
ghost use Rattle.std.specs.Option.{option_copied};
ghost use Rattle.shape_values.specs.Places.{of_shape, of_member, takes_json, holds_lists};

use crate::kinds::{is_header, is_list};
use service_model::{Member, Model, Shape, ShapeId};

/// Where a value stands: its shape, and whether it is a header that holds a JSON document.
#[derive(Clone, Copy, Debug)]
pub struct Place {
    pub shape: ShapeId,
    pub is_json: bool,
}

impl Place {
    /// Where an item of a list or a value of a map stands.
    pub fn of_shape(shape: ShapeId) -> Place
        ensures { result ≡ of_shape shape }
    {
        Place {
            shape,
            is_json: false,
        }
    }

    /// Where the value of a member stands.
    pub fn of_member(member: &Member) -> Place
        ensures { result ≡ of_member member.now }
    {
        Place {
            shape: member.shape,
            is_json: member.json_value && is_header(member.location),
        }
    }

    /// Whether only a JSON document is taken here.
    pub fn takes_json(self, shape: &Shape) -> bool
        ensures { result ≡ takes_json self shape.now }
    {
        self.is_json || shape.document
    }
}

/// The shape with a number, where there is one.
pub fn shape_at(model: &Model, id: ShapeId) -> Option<&Shape>
    ensures { option_copied result ≡ slice_get model.now.shapes id.0 }
{
    if id.0 < model.shape_count() {
        Some(model.shape(id))
    } else {
        None
    }
}

/// Whether a shape is a list of lists.
pub fn holds_lists(model: &Model, shape: &Shape) -> bool
    ensures { result ≡ holds_lists model.now.shapes shape.now }
{
    let Some(id) = shape.item else {
        return false;
    };
    match shape_at(model, id) {
        Some(item) => is_list(item.kind),
        None => false,
    }
}
