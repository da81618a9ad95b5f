use crate::ShapeId;
use json_doc::{Doc, List, Text};

/// An operation of a model: an entry of `operations` in botocore's `service-2.json`.
#[derive(Debug, Drop)]
pub struct Operation {
    pub name: Text,
    /// The name that commands use.
    pub command: Text,
    /// The method of HTTP.
    pub method: Text,
    /// The path, its labels in braces, and the constants of the query.
    pub uri: Text,
    /// The structure that it takes.
    pub input: Option<ShapeId>,
    /// The structure that it gives.
    pub output: Option<ShapeId>,
    /// What stands before the endpoint's host, its labels in braces.
    pub host_prefix: Option<Text>,
    /// Whether it is sent without a signature.
    pub unsigned: bool,
    /// Why it can't be called, if it can't.
    pub refusal: Option<Refusal>,
    /// The parameters of endpoint rules that it sets, each a text or a flag.
    pub fixed_params: List<(Text, Doc)>,
}

/// Why an operation can't be called.
#[derive(Debug, Drop)]
pub enum Refusal {
    /// The service speaks another protocol than `json` and `rest-json`.
    Protocol,
    /// A stream of events is part of the input or output.
    Events,
    /// It is signed in another way than by version 4.
    Signature,
    /// The request must have a checksum.
    Checksum,
    /// The endpoint must be asked for.
    Discovery,
    /// A member is a JSON document in another place than a header, or no string.
    JsonValue,
    /// The body of the reply is bytes.
    BlobOutput,
    /// Two members of the input have one name on the command line, which is this.
    SameArgument(Text),
}
