ghost use Rattle.std.specs.Prelude.{◌≡◌, ◌++◌, IfOk, OnOk};
ghost use Rattle.hex.specs.Hex.{encode_lower};
ghost use Rattle.sigv4.specs.Signature.{scope_of, string_to_sign, signing_key, signature_of, authorization_of};

use crate::keyed_hash::keyed_hash;
use crate::pieces::{push_hash, push_hex, push_joined};
use crate::signer::Signer;
use std::alloc::Global;
use texts::{OutOfMemory, Text};
use time_texts::{push_basic, push_basic_date};

/// The value of `Authorization` for a canonical request ("Create a signed AWS API request", steps 2
/// to 5) with these names of signed headers, so many seconds after 1970 begins.
pub fn authorization(
    alloc: Global,
    signer: &Signer,
    seconds: u64,
    names: &[Text],
    request: &Text,
) -> Result<Text, OutOfMemory>
    ensures { IfOk result (λ value. value
        ≡ authorization_of signer.now seconds names.now (signature_of signer.now seconds request.now)) }
{
    let mut value = Text::new(alloc);
    value.push_ascii("AWS4-HMAC-SHA256 Credential=")?;
    value.push_str(signer.access.as_str())?;
    value.push_ascii("/")?;
    push_scope(&mut value, signer, seconds)?;
    value.push_ascii(", SignedHeaders=")?;
    push_joined(&mut value, ";", names)?;
    value.push_ascii(", Signature=")?;
    let signature = signature(alloc, signer, seconds, request)?;
    push_hex(alloc, &mut value, signature.as_slice())?;
    Ok(value)
}

/// The signature of a canonical request.
fn signature(
    alloc: Global,
    signer: &Signer,
    seconds: u64,
    request: &Text,
) -> Result<[u8; 32], OutOfMemory>
    ensures { IfOk result (λ hash. encode_lower hash ≡ signature_of signer.now seconds request.now) }
{
    let key = signing_key(alloc, signer, seconds)?;
    let text = string_to_sign(alloc, signer, seconds, request)?;
    Ok(keyed_hash(key.as_slice(), text.as_str().as_bytes()))
}

/// Puts the credential scope: date, region, service and a fixed end.
fn push_scope(out: &mut Text, signer: &Signer, seconds: u64) -> Result<(), OutOfMemory>
    ensures { OnOk result (out.new ≡ out.old ++ scope_of signer.now seconds) }
{
    push_basic_date(out, seconds)?;
    out.push_ascii("/")?;
    out.push_str(signer.region.as_str())?;
    out.push_ascii("/")?;
    out.push_str(signer.service.as_str())?;
    out.push_ascii("/aws4_request")
}

/// The text that is signed: the algorithm, the moment, the scope and the canonical request's hash.
fn string_to_sign(
    alloc: Global,
    signer: &Signer,
    seconds: u64,
    request: &Text,
) -> Result<Text, OutOfMemory>
    ensures { IfOk result (λ text. text ≡ string_to_sign signer.now seconds request.now) }
{
    let mut text = Text::new(alloc);
    text.push_ascii("AWS4-HMAC-SHA256\n")?;
    push_basic(&mut text, seconds)?;
    text.push_ascii("\n")?;
    push_scope(&mut text, signer, seconds)?;
    text.push_ascii("\n")?;
    push_hash(alloc, &mut text, request.as_str().as_bytes())?;
    Ok(text)
}

/// The key, made in four steps from the secret over date, region, service and a fixed text.
fn signing_key(alloc: Global, signer: &Signer, seconds: u64) -> Result<[u8; 32], OutOfMemory>
    ensures { IfOk result (λ key. key ≡ signing_key signer.now seconds) }
{
    let mut secret = Text::new(alloc);
    secret.push_ascii("AWS4")?;
    secret.push_str(signer.secret.as_str())?;
    let mut date = Text::new(alloc);
    push_basic_date(&mut date, seconds)?;
    let dated = keyed_hash(secret.as_str().as_bytes(), date.as_str().as_bytes());
    let regional = keyed_hash(dated.as_slice(), signer.region.as_str().as_bytes());
    let serving = keyed_hash(regional.as_slice(), signer.service.as_str().as_bytes());
    Ok(keyed_hash(serving.as_slice(), b"aws4_request"))
}
