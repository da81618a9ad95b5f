//! Requests from values: the message of an operation, and the identifiers of members without one.
//!
//! Many of the rows' answers are what botocore 1.43.11 makes of the same model and arguments:
//! `create_serializer(PROTOCOL, False).serialize_to_request(ARGUMENTS, ServiceModel(MODEL, "x").operation_model(NAME))`,
//! of `botocore.serialize` and `botocore.model`, with `Host` first; signatures are those of
//! `botocore.auth.SigV4Auth` at 2015-08-30T12:36:00Z.
use aws_world::Message;
use endpoint_rules::{Endpoint, Scheme};
use json_doc::{OutOfMemory, Text, read};
use percent_encoding::{CONTROLS, percent_encode};
use row_values::value_of;
use row_words::{text_of, told};
use serializer::{EncodeFault, message, needs_token, with_token};
use service_model::{Model, Operation};
use sigv4::{Signer, sign};
use std::alloc::Global;
use typed_value::Typed;

/// The endpoint of a test service.
const HOME: &str = "http 127.0.0.1 8080 /";

/// The message of an operation of a model for a value, at an endpoint `SCHEME HOST PORT PATH`. Behind the
/// request line and the headers stands the body, with its control characters and all past ASCII escaped.
pub fn request(
    alloc: Global,
    file: &[u8],
    command: &[u8],
    endpoint: &[u8],
    value: &[u8],
) -> Result<Text, OutOfMemory> {
    let Some(Ok(model)) = read(alloc, file).ok().map(|doc| Model::read(alloc, &doc)) else {
        return Text::from_str(alloc, "no model");
    };
    let Some(op) = model.operation(&text_of(alloc, command)?) else {
        return Text::from_str(alloc, "no operation");
    };
    let (Some(endpoint), Some(value)) = (
        endpoint_of(alloc, text_of(alloc, endpoint)?.as_str())?,
        value_of(alloc, value)?,
    ) else {
        return Text::from_str(alloc, "no endpoint or value");
    };
    shown(alloc, message(alloc, &model, op, &value, &endpoint))
}

fn shown(alloc: Global, answer: Result<Message, EncodeFault>) -> Result<Text, OutOfMemory> {
    match answer {
        Ok(message) => message_text(alloc, &message),
        Err(fault) => told(alloc, &fault),
    }
}

/// The message at the endpoint of a test service, signed with the keys of AWS's examples at
/// 2015-08-30T12:36:00Z.
pub fn signed(
    alloc: Global,
    file: &[u8],
    command: &[u8],
    service: &[u8],
    value: &[u8],
) -> Result<Text, OutOfMemory> {
    let Some(Ok(model)) = read(alloc, file).ok().map(|doc| Model::read(alloc, &doc)) else {
        return Text::from_str(alloc, "no model");
    };
    let (Some(op), Some(value), Some(endpoint)) = (
        model.operation(&text_of(alloc, command)?),
        value_of(alloc, value)?,
        endpoint_of(alloc, HOME)?,
    ) else {
        return Text::from_str(alloc, "no operation or value");
    };
    match message(alloc, &model, op, &value, &endpoint) {
        Ok(message) => signed_text(alloc, &message, service),
        Err(fault) => told(alloc, &fault),
    }
}

fn signed_text(alloc: Global, message: &Message, service: &[u8]) -> Result<Text, OutOfMemory> {
    let signer = Signer {
        access: Text::from_str(alloc, "AKIDEXAMPLE")?,
        secret: Text::from_str(alloc, "wJalrXUtnFEMI/K7MDENG+bPxRfiCYEXAMPLEKEY")?,
        session: None,
        region: Text::from_str(alloc, "us-east-1")?,
        service: text_of(alloc, service)?,
    };
    match sign(alloc, message, &signer, 1_440_938_160) {
        Ok(message) => message_text(alloc, &message),
        Err(fault) => told(alloc, &fault),
    }
}

fn message_text(alloc: Global, message: &Message) -> Result<Text, OutOfMemory> {
    let (method, path) = (&message.method, &message.path);
    let mut text = Text::from_string(format!(in alloc; "{method} {path}")?);
    let mut mark = '?';
    for (name, value) in message.query.iter() {
        text.push_str(format!(in alloc; "{mark}{name}={value}")?.as_str())?;
        mark = '&';
    }
    for (name, value) in message.headers.iter() {
        text.push_str(format!(in alloc; "\n{name}: {value}")?.as_str())?;
    }
    let mut body = String::new(alloc);
    percent_encode(message.body.as_slice(), CONTROLS).append_to(&mut body)?;
    text.push_str(format!(in alloc; "\n\n{body}")?.as_str())?;
    Ok(text)
}

fn endpoint_of(alloc: Global, text: &str) -> Result<Option<Endpoint>, OutOfMemory> {
    let Some((scheme, rest)) = text.split_once(' ') else {
        return Ok(None);
    };
    let Some((host, rest)) = rest.split_once(' ') else {
        return Ok(None);
    };
    let Some((port, path)) = rest.split_once(' ') else {
        return Ok(None);
    };
    let Ok(port) = port.parse::<u16>() else {
        return Ok(None);
    };
    Ok(Some(Endpoint {
        scheme: if scheme == "https" {
            Scheme::Https
        } else {
            Scheme::Http
        },
        host: Text::from_str(alloc, host)?,
        port,
        path: Text::from_str(alloc, path)?,
        signing_name: None,
        signing_region: None,
    }))
}

/// The message of the value with an identifier of four words, which are written in hexadecimal digits with a
/// blank between each two; where no member needs one, that.
pub fn identified(
    alloc: Global,
    file: &[u8],
    command: &[u8],
    words: &[u8],
    value: &[u8],
) -> Result<Text, OutOfMemory> {
    let Some(Ok(model)) = read(alloc, file).ok().map(|doc| Model::read(alloc, &doc)) else {
        return Text::from_str(alloc, "no model");
    };
    let Some(op) = model.operation(&text_of(alloc, command)?) else {
        return Text::from_str(alloc, "no operation");
    };
    let (Some(words), Some(value)) = (
        words_of(text_of(alloc, words)?.as_str()),
        value_of(alloc, value)?,
    ) else {
        return Text::from_str(alloc, "no words or value");
    };
    if !needs_token(&model, op, &value) {
        return Text::from_str(alloc, "no identifier is needed");
    }
    let value = with_token(alloc, &model, op, value, words)?;
    at_home(alloc, &model, op, &value)
}

fn at_home(
    alloc: Global,
    model: &Model,
    op: &Operation,
    value: &Typed,
) -> Result<Text, OutOfMemory> {
    let Some(endpoint) = endpoint_of(alloc, HOME)? else {
        return Text::from_str(alloc, "no endpoint");
    };
    shown(alloc, message(alloc, model, op, value, &endpoint))
}

fn words_of(text: &str) -> Option<[u32; 4]> {
    let mut words = [0; 4];
    let mut rest = text;
    for at in 0..4 {
        let (word, others) = rest.split_once(' ').unwrap_or((rest, ""));
        words[at] = u32::from_str_radix(word, 16).ok()?;
        rest = others;
    }
    Some(words)
}
