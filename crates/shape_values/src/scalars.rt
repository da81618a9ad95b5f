//! Texts at shapes without parts.
ghost use Rattle.std.specs.Prelude.{◌≡◌, option_map, encode_utf8_all};
ghost use Rattle.texts.specs.Calls.{Answers};
ghost use Rattle.typed_value.specs.declared.typed.Typed.TheVariants as typed;
ghost use Rattle.shape_values.specs.declared.fault.ValueKind.TheVariants as kind;
ghost use Rattle.shape_values.specs.Faults.{UnlessMemory, is_memory, here};
ghost use Rattle.shape_values.specs.Instants.{Instants, TellsTimes};
ghost use Rattle.shape_values.specs.Scalars.{or_bad, whole_of, flag_of, time_value, scalar_of};

use crate::numbers::{flag_of, whole_of};
use crate::{ArgFault, ValueKind};
use moments::{moment, moments_are_unique};
use service_model::Kind;
use std::alloc::Global;
use texts::Text;
use typed_value::Typed;

/// What is wrong with the whole.
pub fn here(alloc: Global, kind: ValueKind) -> ArgFault
    ensures { result ≡ here kind }
{
    ArgFault::Bad(Text::new(alloc), kind)
}

/// The value of a text at a shape without parts.
pub fn scalar_of(alloc: Global, kind: Kind, text: Text) -> Result<Typed, ArgFault>
    ensures { (instants : Instants) → TellsTimes instants
        → Answers is_memory (λ value. value) result (scalar_of instants kind text) }
{
    match kind {
        Kind::Str => Ok(Typed::Text(text)),
        Kind::Integer | Kind::Long => number_value(alloc, &text),
        Kind::Boolean => flag_value(alloc, &text),
        Kind::Blob => Ok(Typed::Blob(text.into_bytes())),
        Kind::Timestamp => time_value(alloc, &text),
        Kind::Float | Kind::Double => Err(here(alloc, ValueKind::Float)),
        Kind::List | Kind::Structure | Kind::Map => Err(here(alloc, ValueKind::ExpectedOne)),
    }
}

fn number_value(alloc: Global, text: &Text) -> Result<Typed, ArgFault>
    ensures { Answers is_memory (λ value. value) result (or_bad kind.Number (option_map typed.Int (whole_of (encode_utf8_all text.now)))) }
{
    match whole_of(text.as_str().as_bytes()) {
        Some(n) => Ok(Typed::Int(n)),
        None => Err(here(alloc, ValueKind::Number)),
    }
}

fn flag_value(alloc: Global, text: &Text) -> Result<Typed, ArgFault>
    ensures { Answers is_memory (λ value. value) result (or_bad kind.Flag (option_map typed.Flag (flag_of (encode_utf8_all text.now)))) }
{
    match flag_of(text.as_str().as_bytes()) {
        Some(flag) => Ok(Typed::Flag(flag)),
        None => Err(here(alloc, ValueKind::Flag)),
    }
}

/// The value of a text at a timestamp.
pub fn time_value(alloc: Global, text: &Text) -> Result<Typed, ArgFault>
    ensures { (instants : Instants) → TellsTimes instants
        → Answers is_memory (λ value. value) result (time_value (instants (encode_utf8_all text.now))) }
{
    // A law: the instant that is found is the one that any telling has.
    moments_are_unique();
    match moment(text) {
        Some(instant) => Ok(Typed::Moment(instant)),
        None => Err(here(alloc, ValueKind::Time)),
    }
}
