ghost use Rattle.std.specs.Prelude.{◌≡◌, ◌<◌, length, IfOk};
ghost use Rattle.typed_value.specs.Faults.{faults_of};

use crate::fitting::fits_flat;
use crate::judging::validate_flat;
use crate::{Flat, Typed, ValueFault};
use json_doc::{List, OutOfMemory};
use service_model::{Model, ShapeId};
use std::alloc::Global;

/// All faults of the value at the shape, in their order. The value fits where there are none; then no
/// memory is taken past its table.
pub fn validate(
    alloc: Global,
    model: &Model,
    shape: ShapeId,
    value: &Typed,
) -> Result<List<ValueFault>, OutOfMemory>
    requires { shape.0 < length model.now.shapes }
    ensures { IfOk result (λ faults. faults ≡ faults_of model.now.shapes shape value.now) }
{
    let flat = Flat::of(alloc, value)?;
    if fits_flat(model, shape, &flat) {
        return Ok(List::new(alloc));
    }
    validate_flat(alloc, model, shape, &flat)
}
