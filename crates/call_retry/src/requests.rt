//! The bytes of one attempt's request.
ghost use Rattle.std.specs.Prelude.{◌≡◌, ◌≤◌, ℤ, Option, Some, None, []};
ghost use Rattle.std.specs.Option.{option_copied, option_to_list};
ghost use Rattle.aws_world.specs.Moments.{with_more};
ghost use Rattle.aws_world.specs.Told.{Tells};
ghost use Rattle.call_retry.specs.Inside.{IsMade};

use aws_world::{Clock, Message};
use http_exchange::{wire, wire_with};
use json_doc::Bytes;
use sigv4::{SignFault, Signer, signed_headers};
use std::alloc::Global;

/// The bytes of a message, signed at a moment that is read for them where there is a signer.
pub fn request<C: Clock>(
    alloc: Global,
    signer: Option<&Signer>,
    message: &Message,
    clock: &mut C,
) -> Result<Bytes, SignFault>
    ensures made { (moment : Option ℤ) × IsMade (option_copied signer.entry) message.now moment result
        × Tells (C.told clock.old) (C.told clock.new) (λ before after. after ≡ with_more (option_to_list moment) [] before) }
    ensures later { C.faults clock.old ≤ C.faults clock.new }
{
    match signer {
        None => Ok(wire(alloc, message)?),
        Some(signer) => signed_request(alloc, signer, message, clock.now()),
    }
}

/// The bytes of a message signed at a moment.
fn signed_request(
    alloc: Global,
    signer: &Signer,
    message: &Message,
    now: i64,
) -> Result<Bytes, SignFault>
    ensures { IsMade (Some signer.now) message.now (Some now) result }
{
    let added = signed_headers(alloc, message, signer, now)?;
    Ok(wire_with(alloc, message, added.as_slice())?)
}
