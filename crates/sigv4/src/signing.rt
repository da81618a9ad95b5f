ghost use Rattle.std.specs.Prelude.{◌≡◌, ◌⊎◌, IfOk, IfErr, Err};
ghost use Rattle.sigv4.specs.Moment.{IsMoment};
ghost use Rattle.sigv4.specs.Signature.{IsSigned, IsSignedAt, with_headers, stamp};

use crate::authorization::authorization;
use crate::canonical::canonical_request;
use crate::canonical_headers::CanonicalHeaders;
use crate::moments::seconds_of;
use crate::parameters::sorted_query;
use crate::pieces::{copy_pairs, push_header, push_pairs};
use crate::sign_fault::SignFault;
use crate::signer::Signer;
use aws_world::Message;
use std::alloc::Global;
use texts::{Bytes, List, OutOfMemory, Text};
use time_texts::push_basic;

/// The message signed at a moment in seconds since 1970 (AWS Signature Version 4): with `X-Amz-Date`,
/// `X-Amz-Security-Token` where there is a session, and `Authorization` behind its headers.
/// `BadClock` comes exactly where the moment lies before 1970 or after the year 9999.
pub fn sign(
    alloc: Global,
    message: &Message,
    signer: &Signer,
    now: i64,
) -> Result<Message, SignFault>
    ensures signed { IfOk result (IsSigned message.now signer.now now) }
    ensures outside { ¬ IsMoment now → result ≡ Err (SignFault.BadClock now) }
    ensures refused { IfErr result (λ fault. (fault ≡ SignFault.OutOfMemory) ⊎ ((fault ≡ SignFault.BadClock now) × ¬ IsMoment now)) }
{
    let added = signed_headers(alloc, message, signer, now)?;
    let signed = with_headers(alloc, message, added.as_slice())?;
    Ok(signed)
}

/// The headers that `sign` puts behind a message's own, for a caller that writes them out without a
/// copy of the message. The faults are those of `sign`.
pub fn signed_headers(
    alloc: Global,
    message: &Message,
    signer: &Signer,
    now: i64,
) -> Result<List<(Text, Text)>, SignFault>
    ensures signed { IfOk result (λ added. IsSigned message.now signer.now now (with_headers message.now added)) }
    ensures within { IfOk result (λ _. IsMoment now) }
    ensures outside { ¬ IsMoment now → result ≡ Err (SignFault.BadClock now) }
    ensures refused { IfErr result (λ fault. (fault ≡ SignFault.OutOfMemory) ⊎ ((fault ≡ SignFault.BadClock now) × ¬ IsMoment now)) }
{
    let Some(seconds) = seconds_of(now) else {
        return Err(SignFault::BadClock(now));
    };
    let added = headers_at(alloc, message, signer, seconds)?;
    Ok(added)
}

/// The headers that are put behind a message's own so many seconds after 1970 begins.
fn headers_at(
    alloc: Global,
    message: &Message,
    signer: &Signer,
    seconds: u64,
) -> Result<List<(Text, Text)>, OutOfMemory>
    ensures { IfOk result (λ added. IsSignedAt message.now signer.now seconds (with_headers message.now added)) }
{
    let mut added = stamp(alloc, signer, seconds)?;
    let query = sorted_query(alloc, message.query.as_slice())?;
    let headers = CanonicalHeaders::of(alloc, message.headers.as_slice(), added.as_slice())?;
    let request = canonical_request(alloc, message, query.as_slice(), &headers)?;
    let value = authorization(alloc, signer, seconds, headers.names.as_slice(), &request)?;
    push_header(alloc, &mut added, "Authorization", value)?;
    Ok(added)
}

/// The moment's header, and that of the session's token where there is a session.
fn stamp(alloc: Global, signer: &Signer, seconds: u64) -> Result<List<(Text, Text)>, OutOfMemory>
    ensures { IfOk result (λ made. made ≡ stamp signer.now seconds) }
{
    let mut made = List::new(alloc);
    let mut date = Text::new(alloc);
    push_basic(&mut date, seconds)?;
    push_header(alloc, &mut made, "X-Amz-Date", date)?;
    if let Some(token) = &signer.session {
        push_header(alloc, &mut made, "X-Amz-Security-Token", token.copy(alloc)?)?;
    }
    Ok(made)
}

/// A copy of the message with more headers behind its own.
fn with_headers(
    alloc: Global,
    message: &Message,
    more: &[(Text, Text)],
) -> Result<Message, OutOfMemory>
    ensures { IfOk result (λ made. made ≡ with_headers message.now more.now) }
{
    let mut headers = copy_pairs(alloc, message.headers.as_slice())?;
    push_pairs(alloc, &mut headers, more)?;
    Ok(Message {
        method: message.method.copy(alloc)?,
        host: message.host.copy(alloc)?,
        path: message.path.copy(alloc)?,
        query: copy_pairs(alloc, message.query.as_slice())?,
        headers,
        body: Bytes::from_slice(alloc, message.body.as_slice())?,
    })
}
