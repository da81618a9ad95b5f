//! Replies. The shapes of a model are given, and the operation gives the one that is called `Top`, or nothing
//! where there is none. Headers are given as lines.
//!
//! All of these replies were given to botocore 1.43.11's own parsers too, and where they answer, and the
//! rules don't differ (docs/DECISIONS.md), the answers are the same. The command for one of them:
//!
//! ```text
//! python3 -c 'import json, sys; from botocore import awsrequest, model, parsers; a = sys.argv
//! s = model.ServiceModel({"metadata": {}, "operations": {"DoIt": {"name": "DoIt", "http": {},
//!     "output": {"shape": "Top"}}}, "shapes": json.loads(a[2])})
//! print(json.dumps(parsers.PROTOCOL_PARSERS[a[1]](timestamp_parser=str, blob_parser=str).parse(
//!     {"status_code": int(a[3]), "headers": awsrequest.HeadersDict(json.loads(a[4])),
//!     "body": a[5].encode()}, s.operation_model("DoIt").output_shape)))' PROTOCOL SHAPES STATUS HEADERS BODY
//! ```
//!
//! Its answers, but for `ResponseMetadata`, are those of the rows:
//!
//! | Reply | Answer |
//! |---|---|
//! | json, `{"Size":3,"Book":{"Title":"t","X":1,"Id":"i"},"Other":2,"Name":"n"}` | the known members in the model's order |
//! | json, `{"Books":[null,{"Id":null,"Title":"t"},null],..}` | null elements alone |
//! | json, a union in a list in a union, `{"Z":0}` | `{"SDK_UNKNOWN_MEMBER": {"name": "Z"}}` |
//! | json 400, `{"__type":"com.x.v1#Slow:http://y#z","Message":"m"}` | code `Slow`, message `m` |
//! | rest-json 201, `X-Kind: box`, `{"Size": 7, "Other": 1}` | the header, the status and the body |
//! | rest-json, a list header `a, b ,c` | `["a", "b", "c"]` |
//! | rest-json, `X-Meta-One: 1`, `x-META-two: 2` | `{"One": "1", "two": "2"}` |
//! | rest-json, an empty body with a structure as payload | `{}` |
use aws_world::Reply;
use json_doc::{Bytes, Doc, List, OutOfMemory, Text, compact, read};
use resp_parser::{ReplyFault, ServiceError, fault_text, parse, parse_head, service_text};
use row_words::{text_of, told};
use service_model::Model;
use std::alloc::Global;

/// What the words of a row hold.
#[derive(Drop)]
struct Row {
    model: Model,
    reply: Reply,
}

/// What a whole reply gives.
pub fn parsed(alloc: Global, words: &[Vec<u8>]) -> Result<Text, OutOfMemory> {
    let Some(row) = row_of(alloc, words)? else {
        return Text::from_str(alloc, "no model or status");
    };
    let Some(op) = row.model.operation(&Text::from_str(alloc, "do-it")?) else {
        return Text::from_str(alloc, "no operation");
    };
    answer(alloc, parse(alloc, &row.model, op, &row.reply))
}

/// What the head of a reply gives.
pub fn parsed_head(alloc: Global, words: &[Vec<u8>]) -> Result<Text, OutOfMemory> {
    let Some(row) = row_of(alloc, words)? else {
        return Text::from_str(alloc, "no model or status");
    };
    let Some(op) = row.model.operation(&Text::from_str(alloc, "do-it")?) else {
        return Text::from_str(alloc, "no operation");
    };
    if row.reply.status >= 300 {
        return Text::from_str(alloc, "no good status");
    }
    answer(alloc, parse_head(alloc, &row.model, op, &row.reply))
}

/// What is told of a reply that gives no document, and of an error after some retries.
pub fn texts(alloc: Global, words: &[Vec<u8>]) -> Result<Text, OutOfMemory> {
    let Some(row) = row_of(alloc, words)? else {
        return Text::from_str(alloc, "no model or status");
    };
    let Some(op) = row.model.operation(&Text::from_str(alloc, "do-it")?) else {
        return Text::from_str(alloc, "no operation");
    };
    match parse(alloc, &row.model, op, &row.reply) {
        Ok(_) => Text::from_str(alloc, "nothing is told"),
        Err(ReplyFault::Service(error)) => both_texts(alloc, &op.name, error),
        Err(fault) => fault_text(alloc, &op.name, &fault),
    }
}

/// The text of an error before its retries are known, and after two of them.
fn both_texts(alloc: Global, name: &Text, error: ServiceError) -> Result<Text, OutOfMemory> {
    let first = service_text(alloc, name, &error)?;
    let last = ServiceError {
        code: error.code,
        message: error.message,
        status: error.status,
        retries: Some(2),
    };
    let last = fault_text(alloc, name, &ReplyFault::Service(last))?;
    Ok(Text::from_string(format!(in alloc; "{first}\n{last}")?))
}

fn answer(alloc: Global, parsed: Result<Doc, ReplyFault>) -> Result<Text, OutOfMemory> {
    let text = match parsed {
        Ok(doc) => return compact(alloc, &doc),
        Err(ReplyFault::Service(error)) => {
            let (code, status, message) = (&error.code, error.status, &error.message);
            format!(in alloc; "Service({code}, {status}): {message}")?
        }
        Err(ReplyFault::BadBody(path)) => format!(in alloc; "BadBody({path})")?,
        Err(ReplyFault::Compressed) => format!(in alloc; "Compressed")?,
        Err(ReplyFault::OutOfMemory) => return Err(OutOfMemory),
    };
    Ok(Text::from_string(text))
}

fn row_of(alloc: Global, words: &[Vec<u8>]) -> Result<Option<Row>, OutOfMemory> {
    let [protocol, shapes, status, headers, body] = words else {
        return Ok(None);
    };
    let status = text_of(alloc, status.as_slice())?;
    let Ok(status) = status.as_str().parse::<u16>() else {
        return Ok(None);
    };
    let Some(model) = model_of(alloc, protocol.as_slice(), shapes.as_slice())? else {
        return Ok(None);
    };
    let reply = Reply {
        status,
        headers: headers_of(alloc, &text_of(alloc, headers.as_slice())?)?,
        body: Bytes::from_slice(alloc, body.as_slice())?,
    };
    Ok(Some(Row { model, reply }))
}

/// Whether one of these shapes is called `Top`.
fn has_top(alloc: Global, shapes: &[u8]) -> bool {
    let Ok(doc) = read(alloc, shapes) else {
        return false;
    };
    match &doc {
        Doc::Fields(fields) => fields.get("Top").is_some(),
        _ => false,
    }
}

/// The model whose one operation gives the shape `Top`.
fn model_of(alloc: Global, protocol: &[u8], shapes: &[u8]) -> Result<Option<Model>, OutOfMemory> {
    let output = if has_top(alloc, shapes) {
        r#","output":{"shape":"Top"}"#
    } else {
        ""
    };
    let mut file = Vec::from_slice(alloc, br#"{"metadata":{"protocol":""#)?;
    file.extend_from_slice(protocol)?;
    file.extend_from_slice(
        br#"","jsonVersion":"1.1","targetPrefix":"X","endpointPrefix":"x"},"operations":{"#,
    )?;
    file.extend_from_slice(br#""DoIt":{"name":"DoIt","http":{"method":"POST","requestUri":"/"}"#)?;
    file.extend_from_slice(output.as_bytes())?;
    file.extend_from_slice(br#"}},"shapes":"#)?;
    file.extend_from_slice(shapes)?;
    file.push(b'}')?;
    let Ok(doc) = read(alloc, file.as_slice()) else {
        return Ok(None);
    };
    match Model::read(alloc, &doc) {
        Ok(model) => Ok(Some(model)),
        Err(fault) => {
            told(alloc, &fault)?;
            Ok(None)
        }
    }
}

fn headers_of(alloc: Global, lines: &Text) -> Result<List<(Text, Text)>, OutOfMemory> {
    let mut headers = List::new(alloc);
    for line in lines.as_str().lines() {
        if let Some((name, value)) = line.split_once(": ") {
            let name = Text::from_str(alloc, name)?;
            headers.push((name, Text::from_str(alloc, value)?))?;
        }
    }
    Ok(headers)
}
