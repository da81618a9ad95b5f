ghost use Rattle.std.specs.Prelude.{◌≡◌, IsTrue};
ghost use Rattle.std.specs.Option.{option_copied};
ghost use Rattle.texts.specs.Ascii.{is_ascii_text};
ghost use Rattle.texts.specs.Calls.{Answers};
ghost use Rattle.model_files.specs.Faults.{is_memory};
ghost use Rattle.service_model.specs.Metadata.{is_among, is_text, protocol_named, protocol_among, protocol_of, is_json, json_text, metadata_of};

use json_doc::{Doc, List, OutOfMemory, Pairs, Text};
use model_files::{ModelFault, copied, maybe_text, maybe_texts, missing, text_at};
use std::alloc::Global;

/// What a model says of its whole service: `metadata` in botocore's `service-2.json`.
#[derive(Debug, Drop)]
pub struct Metadata {
    pub protocol: Protocol,
    /// The version in the content type of a `json` service's requests; empty where it isn't given.
    pub json_version: Text,
    /// What stands before the operation's name in a `json` service's requests; empty where it isn't
    /// given.
    pub target_prefix: Text,
    /// The service's name in endpoints.
    pub endpoint_prefix: Text,
    /// The service's name in signatures.
    pub signing_name: Option<Text>,
}

/// How a service and its clients write values.
#[derive(Clone, Copy, Debug, PartialEq, Eq)]
pub enum Protocol {
    Json,
    RestJson,
    Other,
}

/// What a model says of its whole service, and whether signatures have version 4.
#[derive(Drop)]
pub struct Described {
    pub metadata: Metadata,
    pub signs_by_v4: bool,
}

/// Reads `metadata`.
#[tactic(auto, unfolding(crate::specs::Metadata::metadata_of))]
pub fn read_metadata(alloc: Global, fields: &Pairs<Doc>) -> Result<Described, ModelFault>
    ensures { Answers is_memory (λ x. x) result (metadata_of fields.now) }
{
    let protocol = read_protocol(alloc, fields)?;
    let is_json = is_json(protocol);
    let json_version = json_text(alloc, fields, "jsonVersion", is_json)?;
    let target_prefix = json_text(alloc, fields, "targetPrefix", is_json)?;
    let endpoint_prefix = text_at(alloc, fields, "endpointPrefix")?;
    let signing_name = maybe_text(alloc, fields, "signingName")?;
    let signature = maybe_text(alloc, fields, "signatureVersion")?;
    Ok(Described {
        metadata: Metadata {
            protocol,
            json_version,
            target_prefix,
            endpoint_prefix: endpoint_prefix.copy(alloc)?,
            signing_name: copied(alloc, signing_name)?,
        },
        signs_by_v4: is_text(signature, "v4"),
    })
}

/// The protocol: of `protocols` the first that this program speaks, else `protocol`.
#[tactic(auto, unfolding(crate::specs::Metadata::protocol_of))]
fn read_protocol(alloc: Global, fields: &Pairs<Doc>) -> Result<Protocol, ModelFault>
    ensures { Answers is_memory (λ x. x) result (protocol_of fields.now) }
{
    let protocol = maybe_text(alloc, fields, "protocol")?;
    let protocols = maybe_texts(alloc, fields, "protocols")?;
    if let Some(names) = protocols {
        return Ok(protocol_among(&names));
    }
    match protocol {
        Some(name) => Ok(protocol_named(name)),
        None => Err(missing(alloc, "protocol")),
    }
}

fn is_json(protocol: Protocol) -> bool
    ensures { result ≡ is_json protocol }
{
    matches!(protocol, Protocol::Json)
}

fn protocol_named(name: &Text) -> Protocol
    ensures { result ≡ protocol_named name.now }
{
    if name.is("json") {
        return Protocol::Json;
    }
    if name.is("rest-json") {
        return Protocol::RestJson;
    }
    Protocol::Other
}

/// `json` where it is among the names, else `rest-json`.
fn protocol_among(names: &List<Text>) -> Protocol
    ensures { result ≡ protocol_among names.now }
{
    if is_among(names, "json") {
        Protocol::Json
    } else if is_among(names, "rest-json") {
        Protocol::RestJson
    } else {
        Protocol::Other
    }
}

/// Whether a text stands in the list.
pub fn is_among(texts: &List<Text>, text: &str) -> bool
    requires { IsTrue (is_ascii_text text.now) }
    ensures { result ≡ is_among text.now texts.now }
{
    texts.iter().any(|other| other.is(text))
}

/// Whether there is a text, and it is this.
pub fn is_text(found: Option<&Text>, text: &str) -> bool
    requires { IsTrue (is_ascii_text text.now) }
    ensures { result ≡ is_text text.now (option_copied found.entry) }
{
    match found {
        Some(found) => found.is(text),
        None => false,
    }
}

/// A text that is needed where the protocol is `json`, and is empty where it isn't there.
#[tactic(auto, unfolding(crate::specs::Metadata::json_text))]
fn json_text(
    alloc: Global,
    fields: &Pairs<Doc>,
    key: &str,
    is_json: bool,
) -> Result<Text, ModelFault>
    requires { IsTrue (is_ascii_text key.now) }
    ensures { Answers is_memory (λ x. x) result (json_text is_json key.now fields.now) }
{
    match maybe_text(alloc, fields, key)? {
        Some(text) => Ok(text.copy(alloc)?),
        None if is_json => Err(missing(alloc, key)),
        None => Ok(Text::new(alloc)),
    }
}
