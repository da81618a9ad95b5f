//! Laws of models, as functions that do nothing.
ghost use Rattle.service_model.specs.Named.{MembersHaveNamedShapes};

/// The shape at a member's number has the name that the model file gives for it.
pub fn members_have_named_shapes()
    ensures { MembersHaveNamedShapes }
{}
