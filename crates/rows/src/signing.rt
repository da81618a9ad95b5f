//! Keyed hashes and signed messages.
//!
//! The hashes in `stdout` are those of RFC 4231 and, of the empty text, what is printed by
//!   printf '' | openssl dgst -sha256 -mac HMAC -macopt hexkey:$(printf key | xxd -p)
//! Signatures are those of the example in AWS's documentation ("Create a signed AWS API request") and
//! of botocore 1.43.11 (`botocore.auth.SigV4Auth(credentials, service, region).add_auth(request)` with
//! `botocore.auth.get_current_datetime` at the moment of the row). Where a header comes again or
//! `Authorization` is there before, which botocore can't be given, the canonical request was written by
//! hand and hashed by Python's `hmac` and `hashlib`.
use aws_world::Message;
use json_doc::{Bytes, Doc, List, OutOfMemory, Text, read};
use row_words::{text_of, told};
use sigv4::{Signer, hmac, sign};
use std::alloc::Global;

pub fn keyed_hash(alloc: Global, key: &[u8], text: &[u8]) -> Result<Text, OutOfMemory> {
    let hash = hmac(alloc, key, text)?;
    Text::from_str(alloc, hex::encode(alloc, hash.as_slice())?.as_str())
}

/// The headers of a message, signed: a moment, region, service and token (none where it is empty), then
/// method, host, path, query and headers (arrays of a name and a value), and the body.
pub fn signed_headers(alloc: Global, words: &[Vec<u8>]) -> Result<Text, OutOfMemory> {
    let [
        moment,
        region,
        service,
        token,
        method,
        host,
        path,
        query,
        headers,
        body,
    ] = words
    else {
        return Text::from_str(alloc, "ten words are due");
    };
    let Some(now) = moment_of(alloc, moment.as_slice())? else {
        return Text::from_str(alloc, "no moment");
    };
    let signer = signer(
        alloc,
        region.as_slice(),
        service.as_slice(),
        token.as_slice(),
    )?;
    let host = text_of(alloc, host.as_slice())?;
    let message = Message {
        method: text_of(alloc, method.as_slice())?,
        path: text_of(alloc, path.as_slice())?,
        query: pairs_of(alloc, List::new(alloc), query.as_slice())?,
        headers: pairs_of(alloc, host_header(alloc, &host)?, headers.as_slice())?,
        body: Bytes::from_slice(alloc, body.as_slice())?,
        host,
    };
    match sign(alloc, &message, &signer, now) {
        Ok(signed) => header_lines(alloc, &signed),
        Err(fault) => told(alloc, &fault),
    }
}

fn moment_of(alloc: Global, word: &[u8]) -> Result<Option<i64>, OutOfMemory> {
    Ok(text_of(alloc, word)?.as_str().parse::<i64>().ok())
}

fn signer(
    alloc: Global,
    region: &[u8],
    service: &[u8],
    token: &[u8],
) -> Result<Signer, OutOfMemory> {
    let session = if token.is_empty() {
        None
    } else {
        Some(text_of(alloc, token)?)
    };
    Ok(Signer {
        access: Text::from_str(alloc, "AKIDEXAMPLE")?,
        secret: Text::from_str(alloc, "wJalrXUtnFEMI/K7MDENG+bPxRfiCYEXAMPLEKEY")?,
        session,
        region: text_of(alloc, region)?,
        service: text_of(alloc, service)?,
    })
}

fn host_header(alloc: Global, host: &Text) -> Result<List<(Text, Text)>, OutOfMemory> {
    let mut headers = List::new(alloc);
    headers.push((Text::from_str(alloc, "Host")?, host.copy(alloc)?))?;
    Ok(headers)
}

/// These pairs and those of a document, which is a list of lists of two texts.
fn pairs_of(
    alloc: Global,
    before: List<(Text, Text)>,
    document: &[u8],
) -> Result<List<(Text, Text)>, OutOfMemory> {
    let mut pairs = before;
    if let Ok(Doc::Items(items)) = read(alloc, document) {
        for item in items.as_slice() {
            if let Some(pair) = pair_of(alloc, item)? {
                pairs.push(pair)?;
            }
        }
    }
    Ok(pairs)
}

fn pair_of(alloc: Global, item: &Doc) -> Result<Option<(Text, Text)>, OutOfMemory> {
    let Doc::Items(both) = item else {
        return Ok(None);
    };
    match both.as_slice() {
        [Doc::Str(name), Doc::Str(value)] => Ok(Some((name.copy(alloc)?, value.copy(alloc)?))),
        _ => Ok(None),
    }
}

fn header_lines(alloc: Global, message: &Message) -> Result<Text, OutOfMemory> {
    let mut lines = Text::new(alloc);
    for (name, value) in message.headers.as_slice() {
        if !lines.is_empty() {
            lines.push('\n')?;
        }
        lines.push_str(name.as_str())?;
        lines.push_str(": ")?;
        lines.push_str(value.as_str())?;
    }
    Ok(lines)
}
