//! The operations of a model, as they stand in its file.
ghost use Rattle.std.specs.Prelude.{◌≡◌, ◌<◌, ◌^◌, [], IsTrue, length};
ghost use Rattle.std.specs.Option.{option_copied};
ghost use Rattle.texts.specs.Ascii.{is_ascii_text};
ghost use Rattle.texts.specs.Calls.{Answers};
ghost use Rattle.model_files.specs.Faults.{is_memory};
ghost use Rattle.service_model.specs.Operations.{command_of, fields_if, input_members, uri_of, method_and_uri, http_of, structure_at, endpoint_prefix, host_prefix_of, true_below, is_true_below, needs_checksum, needs_discovery, operation_of, operations_of};

use crate::ShapeId;
use crate::fixed_values::read_fixed_params;
use crate::labelled::{LabelUse, are_named};
use crate::labels::labels;
use crate::numbering::{Names, structure_in, text_in, value_in};
use crate::signing::read_signing;
use indexmap::IndexSet;
use json_doc::{Doc, List, Pairs, Text};
use model_files::{
    ModelFault, Place, ascii_text, command_name, copied, inside, is_true_at, maybe_object,
    maybe_text, missing_below, object, text_at, wrong,
};
use std::alloc::Global;

/// An operation as it stands in its file, before its shapes are known.
#[derive(Drop)]
pub struct Row {
    pub name: Text,
    pub command: Text,
    pub method: Text,
    pub uri: Text,
    pub input: Option<ShapeId>,
    pub output: Option<ShapeId>,
    pub host_prefix: Option<Text>,
    /// Whether it is sent without a signature.
    pub unsigned: bool,
    /// Whether it is signed in another way than by version 4.
    pub is_signed_otherwise: bool,
    pub fixed_params: List<(Text, Doc)>,
    /// Whether a request must have a checksum.
    pub needs_checksum: bool,
    /// Whether the endpoint must be asked for.
    pub needs_discovery: bool,
}

/// What the operations of one model share.
#[derive(Clone, Copy)]
pub struct Service<'a> {
    pub names: &'a Names,
    /// The shapes as they stand in the file.
    pub shapes: &'a Pairs<Doc>,
    pub signs_by_v4: bool,
}

/// Reads the operations in their order. No two have one command name.
pub fn read_operations(
    alloc: Global,
    service: &Service,
    pairs: &Pairs<Doc>,
) -> Result<Vec<Row>, ModelFault>
    requires { length service.now.names.now.entries < 2 ^ 32 }
    ensures { Answers is_memory (λ rows. rows.items) result (operations_of service.now.names.now.entries service.now.shapes.now service.now.signs_by_v4 [] pairs.now) }
{
    let mut rows = Vec::with_capacity(alloc, pairs.len())?;
    let mut commands = IndexSet::new(alloc);
    for pair in pairs.as_slice() {
        let read = read_operation(alloc, service, &commands, &pair.value);
        let row = inside(alloc, pair.key.as_str(), read)?;
        commands.insert(row.command.copy(alloc)?)?;
        rows.push(row)?;
    }
    Ok(rows)
}

#[tactic(auto, unfolding(crate::specs::Operations::operation_of))]
fn read_operation(
    alloc: Global,
    service: &Service,
    commands: &IndexSet<Text>,
    doc: &Doc,
) -> Result<Row, ModelFault>
    requires { length service.now.names.now.entries < 2 ^ 32 }
    ensures { Answers is_memory (λ x. x) result (operation_of service.now.names.now.entries service.now.shapes.now service.now.signs_by_v4 commands.now.keys doc.now) }
{
    let fields = object(doc)?;
    let name = text_at(alloc, fields, "name")?;
    let command = read_command(alloc, commands, name)?;
    let (method, uri) = read_http(alloc, service, fields)?;
    let input = read_structure(alloc, service.names, fields, "input")?;
    let output = read_structure(alloc, service.names, fields, "output")?;
    let host_prefix = read_host_prefix(alloc, service, fields)?;
    let signing = read_signing(alloc, service.signs_by_v4, fields)?;
    let fixed_params = read_fixed_params(alloc, fields)?;
    Ok(Row {
        name: name.copy(alloc)?,
        command,
        method: method.copy(alloc)?,
        uri: uri.copy(alloc)?,
        input,
        output,
        host_prefix: copied(alloc, host_prefix)?,
        unsigned: signing.unsigned,
        is_signed_otherwise: signing.is_other,
        fixed_params,
        needs_checksum: needs_checksum(fields),
        needs_discovery: needs_discovery(fields),
    })
}

/// The command name of an operation, which no earlier one has.
#[tactic(auto, unfolding(crate::specs::Operations::command_of))]
fn read_command(alloc: Global, commands: &IndexSet<Text>, name: &Text) -> Result<Text, ModelFault>
    ensures { Answers is_memory (λ x. x) result (command_of commands.now.keys name.now) }
{
    let command = command_name(alloc, name)?;
    if commands.contains(&command) {
        return match ascii_text(alloc, "name") {
            Ok(key) => Err(ModelFault::Collides(Place::At(key))),
            Err(_) => Err(ModelFault::OutOfMemory),
        };
    }
    Ok(command)
}

/// The method of HTTP and the URI.
#[tactic(auto, using(model_files::proofs::Each::gives_inside), unfolding(crate::specs::Operations::http_of))]
fn read_http<'a>(
    alloc: Global,
    service: &Service,
    fields: &'a Pairs<Doc>,
) -> Result<(&'a Text, &'a Text), ModelFault>
    ensures { Answers is_memory (λ x. (x.0.now, x.1.now)) result (http_of service.now.names.now.entries service.now.shapes.now fields.now) }
{
    let Some(http) = maybe_object(alloc, fields, "http")? else {
        return Err(missing_below(alloc, "http", "method"));
    };
    inside(alloc, "http", method_and_uri(alloc, service, fields, http))
}

#[tactic(auto, unfolding(crate::specs::Operations::method_and_uri))]
fn method_and_uri<'a>(
    alloc: Global,
    service: &Service,
    fields: &Pairs<Doc>,
    http: &'a Pairs<Doc>,
) -> Result<(&'a Text, &'a Text), ModelFault>
    ensures { Answers is_memory (λ x. (x.0.now, x.1.now)) result (method_and_uri service.now.names.now.entries service.now.shapes.now fields.now http.now) }
{
    let method = text_at(alloc, http, "method")?;
    let uri = labelled_uri(alloc, service, fields, http)?;
    Ok((method, uri))
}

/// The URI, each of whose labels names a member of the input that stands in URIs.
#[tactic(auto, unfolding(crate::specs::Operations::uri_of))]
fn labelled_uri<'a>(
    alloc: Global,
    service: &Service,
    fields: &Pairs<Doc>,
    http: &'a Pairs<Doc>,
) -> Result<&'a Text, ModelFault>
    ensures { Answers is_memory (λ uri. uri.now) result (uri_of service.now.names.now.entries service.now.shapes.now fields.now http.now) }
{
    let uri = text_at(alloc, http, "requestUri")?;
    let labels = labels(alloc, uri)?;
    let members = input_members(service, fields);
    if are_named(alloc, labels.as_slice(), members, LabelUse::Uri)? {
        Ok(uri)
    } else {
        Err(wrong(alloc, "requestUri"))
    }
}

/// The prefix of the host, each of whose labels names a member of the input that stands there.
#[tactic(auto, using(model_files::proofs::Each::gives_inside), unfolding(crate::specs::Operations::host_prefix_of))]
fn read_host_prefix<'a>(
    alloc: Global,
    service: &Service,
    fields: &'a Pairs<Doc>,
) -> Result<Option<&'a Text>, ModelFault>
    ensures { Answers is_memory option_copied result (host_prefix_of service.now.names.now.entries service.now.shapes.now fields.now) }
{
    let Some(endpoint) = maybe_object(alloc, fields, "endpoint")? else {
        return Ok(None);
    };
    inside(
        alloc,
        "endpoint",
        labelled_prefix(alloc, service, fields, endpoint),
    )
}

#[tactic(auto, unfolding(crate::specs::Operations::endpoint_prefix))]
fn labelled_prefix<'a>(
    alloc: Global,
    service: &Service,
    fields: &Pairs<Doc>,
    endpoint: &'a Pairs<Doc>,
) -> Result<Option<&'a Text>, ModelFault>
    ensures { Answers is_memory option_copied result (endpoint_prefix (input_members service.now.names.now.entries service.now.shapes.now fields.now) endpoint.now) }
{
    let Some(prefix) = maybe_text(alloc, endpoint, "hostPrefix")? else {
        return Ok(None);
    };
    let labels = labels(alloc, prefix)?;
    let members = input_members(service, fields);
    if are_named(alloc, labels.as_slice(), members, LabelUse::Host)? {
        Ok(Some(prefix))
    } else {
        Err(wrong(alloc, "hostPrefix"))
    }
}

/// The members of the input, where they can be read.
#[tactic(auto, unfolding(crate::specs::Operations::input_members))]
fn input_members<'a>(service: &Service<'a>, fields: &Pairs<Doc>) -> Option<&'a Pairs<Doc>>
    ensures { option_copied result ≡ input_members service.now.names.now.entries service.now.shapes.now fields.now }
{
    let name = text_in(fields.get("input")?, "shape")?;
    let at = service.names.get_index_of(name)?;
    let shape = service.shapes.as_slice().get(at)?;
    if !text_in(&shape.value, "type")?.is("structure") {
        return None;
    }
    fields_if(value_in(&shape.value, "members")?)
}

/// A document that may be an object.
#[tactic(auto, unfolding(crate::specs::Operations::fields_if))]
fn fields_if(doc: &Doc) -> Option<&Pairs<Doc>>
    ensures { option_copied result ≡ fields_if doc.now }
{
    match doc {
        Doc::Fields(fields) => Some(fields),
        _ => None,
    }
}

/// The structure that is named at `input` or `output`, where there is one.
#[tactic(auto, using(model_files::proofs::Each::gives_inside), unfolding(crate::specs::Operations::structure_at))]
fn read_structure(
    alloc: Global,
    names: &Names,
    fields: &Pairs<Doc>,
    key: &str,
) -> Result<Option<ShapeId>, ModelFault>
    requires few { length names.now.entries < 2 ^ 32 }
    requires ascii { IsTrue (is_ascii_text key.now) }
    ensures { Answers is_memory (λ x. x) result (structure_at names.now.entries key.now fields.now) }
{
    let Some(doc) = fields.get(key) else {
        return Ok(None);
    };
    let id = inside(alloc, key, structure_in(alloc, names, doc))?;
    Ok(Some(id))
}

/// Whether a request must have a checksum.
fn needs_checksum(fields: &Pairs<Doc>) -> bool
    ensures { result ≡ needs_checksum fields.now }
{
    is_true_at(fields, "httpChecksumRequired")
        || is_true_below(fields, "httpChecksum", "requestChecksumRequired")
}

/// Whether the endpoint must be asked for.
fn needs_discovery(fields: &Pairs<Doc>) -> bool
    ensures { result ≡ needs_discovery fields.now }
{
    is_true_below(fields, "endpointdiscovery", "required")
}

/// Whether true stands at a key of what may be an object.
fn is_true_within(doc: &Doc, key: &str) -> bool
    requires { IsTrue (is_ascii_text key.now) }
    ensures { result ≡ true_below key.now (fields_if doc.now) }
{
    match fields_if(doc) {
        Some(fields) => is_true_at(fields, key),
        None => false,
    }
}

/// Whether true stands at a key of what may be an object at a key.
#[tactic(auto, unfolding(crate::specs::Operations::is_true_below))]
fn is_true_below(fields: &Pairs<Doc>, object: &str, key: &str) -> bool
    requires object { IsTrue (is_ascii_text object.now) }
    requires key { IsTrue (is_ascii_text key.now) }
    ensures { result ≡ is_true_below object.now key.now fields.now }
{
    match fields.get(object) {
        Some(doc) => is_true_within(doc, key),
        None => false,
    }
}
