//! Whole commands over the outside in memory. What is expected follows from the rules by hand.
mod faults;
mod folders;
mod lines;
mod models;
mod replies;

use super::*;
use aws_world::{LinkFault, ListDice, MemClock, MemFiles, MemSink, Script, ScriptLink};
use json_doc::{Bytes, OutOfMemory};
use std::process::Abort;
use std::test::Fail;

const MODEL: &str =
    r#"{"metadata":{"protocol":"json","jsonVersion":"1.1","targetPrefix":"Shelf_20240501",
"endpointPrefix":"shelf","signatureVersion":"v4"},
"operations":{"ListTitles":{"name":"ListTitles","http":{"method":"POST","requestUri":"/"},
"input":{"shape":"Nothing"},"output":{"shape":"TitlesOut"}}},
"shapes":{"Text":{"type":"string"},"Nothing":{"type":"structure","members":{}},
"Texts":{"type":"list","member":{"shape":"Text"}},
"TitlesOut":{"type":"structure","members":{"Titles":{"shape":"Texts"},"Shelf":{"shape":"Text"}}}}}"#;

const REQUEST: &str = "POST / HTTP/1.1\r\nHost: 127.0.0.1:8080\r\n\
X-Amz-Target: Shelf_20240501.ListTitles\r\nContent-Type: application/x-amz-json-1.1\r\n\
User-Agent: aws-json-cli/1\r\nContent-Length: 2\r\nConnection: close\r\n\r\n{}";

const COMMAND: &str = "shelf list-titles --no-sign-request --endpoint-url http://127.0.0.1:8080";

const TITLES: &str =
    "HTTP/1.1 200 OK\r\nContent-Length: 28\r\n\r\n{\"Titles\": [\"Dune\", \"Emma\"]}";

const TITLES_OUT: &str = "{\n    \"Titles\": [\n        \"Dune\",\n        \"Emma\"\n    ]\n}\n";

const NOT_BUILT: &str = "\nOperation not supported: NotBuilt\n";

/// The outside of a command: what the folders of models hold, what the service does, and which
/// calls fail.
#[derive(Drop)]
struct Outside {
    folders: Text,
    files: List<(Text, Bytes)>,
    scripts: List<Script>,
    bad_files: List<u64>,
    bad_out: List<u64>,
}

/// What a command is to do to the outside.
#[derive(Drop)]
struct Due<'a> {
    status: u8,
    out: &'static str,
    err: &'a str,
    /// What the one connection sends, where there is one.
    sent: Option<&'static str>,
}

/// Nothing is printed, and this is said.
fn refused<'a>(status: u8, err: &'a str, sent: Option<&'static str>) -> Due<'a> {
    Due {
        status,
        out: "",
        err,
        sent,
    }
}

/// The titles are printed.
fn printed() -> Due<'static> {
    Due {
        status: 0,
        out: TITLES_OUT,
        err: "",
        sent: Some(REQUEST),
    }
}

/// A service that gives these bytes and ends, and all calls well.
fn service(alloc: Global, model: &str, reply: &str) -> Result<Outside, OutOfMemory> {
    let mut files = List::new(alloc);
    let path = Text::from_str(alloc, "models/shelf/2024-05-01/service-2.json")?;
    files.push((path, Bytes::from_slice(alloc, model.as_bytes())?))?;
    let mut scripts = List::new(alloc);
    scripts.push(Script {
        refuse: None,
        stop_send: None,
        reply: Bytes::from_slice(alloc, reply.as_bytes())?,
        after: None,
    })?;
    Ok(Outside {
        folders: Text::from_str(alloc, "models")?,
        files,
        scripts,
        bad_files: List::new(alloc),
        bad_out: List::new(alloc),
    })
}

fn check(
    rt: &impl Abort,
    alloc: Global,
    line: &str,
    outside: Outside,
    due: &Due,
) -> Result<(), OutOfMemory> {
    let mut files = MemFiles::new(alloc, outside.files, outside.bad_files);
    let mut link = ScriptLink::new(alloc, outside.scripts, 7);
    let mut out = MemSink::new(alloc, outside.bad_out);
    let mut err = MemSink::new(alloc, List::new(alloc));
    let ending = run(
        alloc,
        &words(alloc, line)?,
        &environment(alloc, outside.folders)?,
        &mut files,
        &mut link,
        &mut MemClock::new(alloc, List::new(alloc)),
        &mut ListDice::new(alloc, List::new(alloc), List::new(alloc)),
        &mut out,
        &mut err,
    );
    assert_eq!(rt; ending.status, due.status, "{line}");
    assert_eq!(rt; out.bytes(), Some(due.out.as_bytes()), "{line}");
    assert_eq!(rt; err.bytes(), Some(due.err.as_bytes()), "{line}");
    let connections = link.connections().unwrap_or(&[]);
    assert_eq!(rt; connections.len(), due.sent.iter().count(), "{line}");
    for (kept, sent) in connections.iter().zip(due.sent.iter()) {
        assert_eq!(rt; kept.sent.as_slice(), sent.as_bytes());
    }
    Ok(())
}

fn words(alloc: Global, line: &str) -> Result<List<Text>, OutOfMemory> {
    let mut words = List::new(alloc);
    for word in line.split(' ') {
        words.push(Text::from_str(alloc, word)?)?;
    }
    Ok(words)
}

fn environment(alloc: Global, folders: Text) -> Result<Env, OutOfMemory> {
    let mut pairs = List::new(alloc);
    pairs.push((Text::from_str(alloc, "AWS_DATA_PATH")?, folders))?;
    Ok(Env { pairs })
}

/// Of a command that an allocation is refused to, this is what may come: its own ending, or that
/// memory is wanted. `tools/refuse-memory` refuses each allocation in turn.
#[test]
fn a_refused_allocation(rt: HostRuntime) -> Result<(), Fail> {
    let alloc = rt.alloc();
    let outside = service(alloc, MODEL, TITLES)?;
    let line = words(alloc, COMMAND)?;
    let env = environment(alloc, outside.folders)?;
    let mut files = MemFiles::new(alloc, outside.files, outside.bad_files);
    let mut link = ScriptLink::new(alloc, outside.scripts, 7);
    let mut out = MemSink::new(alloc, outside.bad_out);
    let mut err = MemSink::new(alloc, List::new(alloc));
    let mut clock = MemClock::new(alloc, List::new(alloc));
    let mut dice = ListDice::new(alloc, List::new(alloc), List::new(alloc));
    let ending = run(
        alloc, &line, &env, &mut files, &mut link, &mut clock, &mut dice, &mut out, &mut err,
    );
    let printed = out.bytes().unwrap_or(b"");
    match ending.cause {
        Cause::Done => assert!(rt; TITLES_OUT.as_bytes().starts_with(printed)),
        Cause::OutOfMemory => assert!(rt; printed.is_empty()),
        other => panic!(rt; "{other:?}"),
    }
    Ok(())
}
