//! Calls, at the endpoint of a test service. Behind each call's end stands the quota that is left; then stand the
//! connections, moments, pauses and words of all of them. A request is shown with its control characters escaped.
ghost use Rattle.std.specs.Prelude.{◌≡◌, false};
ghost use Rattle.service_model.specs.Kept.{IsOperation};

use crate::outside::{clock_of, dice_of, link_of};
use crate::settings::{Settings, settings_of, signer};
use aws_world::{Connection, Link, ListDice, MemClock, ScriptLink, Target};
use call_retry::{CallEnd, Caller, Quota};
use endpoint_rules::{Endpoint, Scheme};
use json_doc::{OutOfMemory, Text, compact, read};
use percent_encoding::{CONTROLS, percent_encode};
use resp_parser::ServiceError;
use row_values::value_of;
use row_words::{text_of, told};
use service_model::{Model, Operation};
use sigv4::Signer;
use std::alloc::Global;
use typed_value::Typed;

/// Whom the calls of a row ask, and how.
#[derive(Clone, Copy)]
struct Asked<'a> {
    model: &'a Model,
    op: &'a Operation,
    endpoint: &'a Endpoint,
    target: &'a Target,
    signer: Option<&'a Signer>,
    settings: Settings,
}

/// What the calls of a row use of the outside.
#[derive(Drop)]
struct Outside {
    link: ScriptLink,
    clock: MemClock,
    dice: ListDice,
}

/// The calls of a row: a model, an operation, settings, connections, moments, words and a value.
pub fn calls(alloc: Global, words: &[Vec<u8>]) -> Result<Text, OutOfMemory> {
    let [file, command, settings, scripts, moments, random, value] = words else {
        return Text::from_str(alloc, "no row");
    };
    let Some(Ok(model)) = read(alloc, file.as_slice())
        .ok()
        .map(|doc| Model::read(alloc, &doc))
    else {
        return Text::from_str(alloc, "no model");
    };
    let Some(op) = model.operation(&text_of(alloc, command.as_slice())?) else {
        return Text::from_str(alloc, "no operation");
    };
    let Some(value) = value_of(alloc, value.as_slice())? else {
        return Text::from_str(alloc, "no value");
    };
    let settings = settings_of(text_of(alloc, settings.as_slice())?.as_str());
    let mut outside = Outside {
        link: link_of(alloc, scripts.as_slice(), 1)?,
        clock: clock_of(alloc, text_of(alloc, moments.as_slice())?.as_str())?,
        dice: dice_of(alloc, text_of(alloc, random.as_slice())?.as_str())?,
    };
    let (endpoint, target, keys) = (endpoint(alloc)?, target(alloc)?, signer(alloc)?);
    let signer = if settings.signed { Some(&keys) } else { None };
    let asked = Asked {
        model: &model,
        op,
        endpoint: &endpoint,
        target: &target,
        signer,
        settings,
    };
    let mut text = made(alloc, asked, &value, &mut outside)?;
    push_outside(alloc, &mut text, settings, &outside)?;
    Ok(text)
}

/// The ends of the calls, a line each with the quota that is left.
fn made(
    alloc: Global,
    asked: Asked<'_>,
    value: &Typed,
    outside: &mut Outside,
) -> Result<Text, OutOfMemory>
    requires operation { IsOperation asked.model.now.shapes asked.op.now }
    requires none_live { ⟦<ScriptLink as Link>⟧.live outside.old.link ≡ false }
{
    let settings = asked.settings;
    let mut quota = Quota::full();
    quota.take(500 - settings.quota.min(500));
    let mut caller = Caller {
        model: asked.model,
        op: asked.op,
        endpoint: asked.endpoint,
        target: asked.target,
        signer: asked.signer,
        limit: settings.limit.max(1),
        quota,
        link: &mut outside.link,
        clock: &mut outside.clock,
        dice: &mut outside.dice,
    };
    let mut text = Text::new(alloc);
    for _ in 0..settings.calls {
        let end = caller.ask(alloc, value);
        push_end(alloc, &mut text, end, caller.quota.left())?;
    }
    Ok(text)
}

fn push_end(alloc: Global, text: &mut Text, end: CallEnd, left: u16) -> Result<(), OutOfMemory> {
    text.push_str(end_text(alloc, end)?.as_str())?;
    text.push_str(format!(in alloc; "; quota {left}\n")?.as_str())
}

fn endpoint(alloc: Global) -> Result<Endpoint, OutOfMemory> {
    Ok(Endpoint {
        scheme: Scheme::Http,
        host: Text::from_str(alloc, "127.0.0.1")?,
        port: 8080,
        path: Text::from_str(alloc, "/")?,
        signing_name: None,
        signing_region: None,
    })
}

fn target(alloc: Global) -> Result<Target, OutOfMemory> {
    Ok(Target {
        host: Text::from_str(alloc, "127.0.0.1")?,
        port: 8080,
    })
}

fn end_text(alloc: Global, end: CallEnd) -> Result<Text, OutOfMemory> {
    let text = match end {
        CallEnd::Answer(doc, status) => {
            let doc = compact(alloc, &doc)?;
            format!(in alloc; "Answer({doc}, {status})")?
        }
        CallEnd::Encode(fault) => {
            let fault = told(alloc, &fault)?;
            format!(in alloc; "Encode({fault})")?
        }
        CallEnd::Service(error) => return service_text(alloc, &error),
        CallEnd::Lost(fault) => format!(in alloc; "Lost({fault:?})")?,
        CallEnd::Cut => format!(in alloc; "Cut")?,
        CallEnd::Malformed => format!(in alloc; "Malformed")?,
        CallEnd::TooLarge => format!(in alloc; "TooLarge")?,
        CallEnd::BadReply(path) => format!(in alloc; "BadReply({path})")?,
        CallEnd::Compressed => format!(in alloc; "Compressed")?,
        CallEnd::BadClock(now) => format!(in alloc; "BadClock({now})")?,
        CallEnd::DiceFault => format!(in alloc; "DiceFault")?,
        CallEnd::OutOfMemory => format!(in alloc; "OutOfMemory")?,
    };
    Ok(Text::from_string(text))
}

fn service_text(alloc: Global, error: &ServiceError) -> Result<Text, OutOfMemory> {
    let (code, status, message) = (&error.code, error.status, &error.message);
    let text = match error.retries {
        Some(retries) => {
            format!(in alloc; "Service({code}, {status}, {retries} retries): {message}")?
        }
        None => format!(in alloc; "Service({code}, {status}): {message}")?,
    };
    Ok(Text::from_string(text))
}

/// What the calls did to the outside. Of more than one call it is told how often.
fn push_outside(
    alloc: Global,
    text: &mut Text,
    settings: Settings,
    outside: &Outside,
) -> Result<(), OutOfMemory> {
    let connections = outside.link.connections().unwrap_or(&[]);
    let moments = outside.clock.given().unwrap_or(&[]);
    let pauses = outside.clock.pauses().unwrap_or(&[]);
    let words = outside.dice.given();
    if settings.calls > 1 {
        let (connections, moments) = (connections.len(), moments.len());
        let (pauses, words) = (pauses.len(), words.len());
        let counts = format!(in alloc;
            "{connections} connections, {moments} moments, {pauses} pauses, {words} words"
        )?;
        return text.push_str(counts.as_str());
    }
    for connection in connections {
        push_connection(alloc, text, connection)?;
    }
    text.push_str("moments")?;
    for moment in moments {
        text.push_str(format!(in alloc; " {moment}")?.as_str())?;
    }
    text.push_str("\npauses")?;
    for pause in pauses {
        text.push_str(format!(in alloc; " {pause}")?.as_str())?;
    }
    text.push_str("\nwords")?;
    for word in words {
        text.push_str(format!(in alloc; " {word}")?.as_str())?;
    }
    Ok(())
}

fn push_connection(
    alloc: Global,
    text: &mut Text,
    connection: &Connection,
) -> Result<(), OutOfMemory> {
    let (host, port) = (&connection.host, connection.port);
    let mut sent = String::new(alloc);
    percent_encode(connection.sent.as_slice(), CONTROLS).append_to(&mut sent)?;
    text.push_str(format!(in alloc; "{host}:{port} {sent}\n")?.as_str())
}
