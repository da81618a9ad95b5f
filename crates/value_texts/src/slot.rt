//! Where a value stands: its shape, and how its member writes times.
ghost use Rattle.std.specs.Prelude.{◌≡◌, slice_get};
ghost use Rattle.std.specs.Option.{option_copied};
ghost use Rattle.typed_value.specs.Kinds.{is_map};
ghost use Rattle.value_texts.specs.Slots.{slot_of_shape, slot_of_member, form_at};

use service_model::{Kind, Member, Model, Shape, ShapeId, TimeForm};

/// Where a value stands: its shape, and the form of times that its member asks for.
#[derive(Clone, Copy, Debug)]
pub struct Slot {
    pub shape: ShapeId,
    pub time: Option<TimeForm>,
}

impl Slot {
    /// Where an item of a list or a value of a map stands.
    pub fn of_shape(shape: ShapeId) -> Slot
        ensures { result ≡ slot_of_shape shape }
    {
        Slot { shape, time: None }
    }

    /// Where the value of a member stands.
    pub fn of_member(member: &Member) -> Slot
        ensures { result ≡ slot_of_member member.now }
    {
        Slot {
            shape: member.shape,
            time: member.time,
        }
    }

    /// How times are written here: as the member says, else its shape, else as is usual in the part of the
    /// request.
    pub fn form(self, model: &Model, usual: TimeForm) -> TimeForm
        ensures { result ≡ form_at model.now.shapes usual self }
    {
        if let Some(form) = self.time {
            return form;
        }
        match shape_at(model, self.shape) {
            Some(shape) => shape.time.unwrap_or(usual),
            None => usual,
        }
    }
}

/// The shape with a number, where there is one.
pub fn shape_at(model: &Model, id: ShapeId) -> Option<&Shape>
    ensures { option_copied result ≡ slice_get model.now.shapes id.0 }
{
    if id.0 < model.shape_count() {
        Some(model.shape(id))
    } else {
        None
    }
}

/// Whether values of the kind have entries under keys of their own.
pub(crate) fn is_map(kind: Kind) -> bool
    ensures { result ≡ is_map kind }
{
    matches!(kind, Kind::Map)
}
