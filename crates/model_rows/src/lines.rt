//! Command lines: as commands, and beside the table of an operation.
use arg_table::{ArgTable, CommandHead, Group, Line, UsageFault, arg_name, head};
use json_doc::{List, OutOfMemory, Text, read};
use row_words::{text_of, told};
use service_model::{Model, PagerRow};
use std::alloc::Global;

/// What stands before the members of an operation's input in a model.
const BEFORE: &str =
    r#"{"metadata":{"protocol":"json","jsonVersion":"1.1","targetPrefix":"P","endpointPrefix":"p","signatureVersion":"v4"},
"operations":{"Do":{"name":"Do","http":{"method":"POST","requestUri":"/"},"input":{"shape":"In"}},
"Idle":{"name":"Idle","http":{"method":"POST","requestUri":"/"}}},
"shapes":{"string":{"type":"string"},"integer":{"type":"integer"},"boolean":{"type":"boolean"},
"list":{"type":"list","member":{"shape":"string"}},"structure":{"type":"structure","members":{}},
"In":{"type":"structure","members":{"#;

pub fn name(alloc: Global, name: &[u8]) -> Result<Text, OutOfMemory> {
    arg_name(alloc, &text_of(alloc, name)?)
}

/// The command that a line is, or its fault.
pub fn command(alloc: Global, words: &[Vec<u8>]) -> Result<Text, OutOfMemory> {
    match head(alloc, &texts(alloc, words)?) {
        Ok(head) => head_text(alloc, &head),
        Err(fault) => fault_text(alloc, &fault),
    }
}

/// What a line says beside an operation with these members and this row, or its fault.
///
/// A member is written `Name:type`, with `!` where it is required and `*` where it gets an identifier by
/// itself; a row as its input tokens and, behind `/`, its limit key. No member is an operation without
/// input, no row an operation without one.
pub fn line(
    alloc: Global,
    members: &[u8],
    row: &[u8],
    words: &[Vec<u8>],
) -> Result<Text, OutOfMemory> {
    let members = text_of(alloc, members)?;
    let Some(Ok(model)) = read(alloc, model_of(alloc, members.as_str())?.as_bytes())
        .ok()
        .map(|doc| Model::read(alloc, &doc))
    else {
        return Text::from_str(alloc, "no model");
    };
    let command = if members.is_empty() { "idle" } else { "do" };
    let Some(op) = model.operation(&Text::from_str(alloc, command)?) else {
        return Text::from_str(alloc, "no operation");
    };
    if let Err(refusal) = model.admit(op) {
        let text = format!(in alloc; "{refusal:?}")?;
        return Ok(Text::from_string(text));
    }
    let row = row_of(alloc, text_of(alloc, row)?.as_str())?;
    let table = ArgTable::of(alloc, &model, op, row.as_ref())?;
    split(alloc, &table, words)
}

fn split(alloc: Global, table: &ArgTable, words: &[Vec<u8>]) -> Result<Text, OutOfMemory> {
    let split = match head(alloc, &texts(alloc, words)?) {
        Ok(head) => table.split(alloc, &head),
        Err(fault) => Err(fault),
    };
    match split {
        Ok(line) => line_text(alloc, &line),
        Err(fault) => fault_text(alloc, &fault),
    }
}

fn texts(alloc: Global, words: &[Vec<u8>]) -> Result<List<Text>, OutOfMemory> {
    let mut texts = List::new(alloc);
    for word in words {
        texts.push(text_of(alloc, word.as_slice())?)?;
    }
    Ok(texts)
}

/// The model of an operation whose input has these members.
fn model_of(alloc: Global, members: &str) -> Result<String, OutOfMemory> {
    let mut made = String::from_str(alloc, BEFORE)?;
    let mut required = String::new(alloc);
    for member in members.split(' ') {
        let Some((name, kind)) = member.split_once(':') else {
            break;
        };
        let (kind, token) = without(kind, "*");
        let (kind, needed) = without(kind, "!");
        made.push_str(format!(in alloc;
            "{comma}\"{name}\":{{\"shape\":\"{kind}\",\"idempotencyToken\":{token}}}",
            comma = comma(made.as_str())
        )?
        .as_str())?;
        if needed {
            required.push_str(format!(in alloc;
                "{comma}\"{name}\"",
                comma = comma(required.as_str())
            )?.as_str())?;
        }
    }
    made.push_str(format!(in alloc; "}},\"required\":[{required}]}}}}}}")?.as_str())?;
    Ok(made)
}

/// A kind without this mark behind it, and whether it was there.
fn without<'a>(kind: &'a str, mark: &str) -> (&'a str, bool) {
    match kind.strip_suffix(mark) {
        Some(kind) => (kind, true),
        None => (kind, false),
    }
}

/// What stands before one more of what a text lists.
fn comma(text: &str) -> &'static str {
    if text.is_empty() || text.ends_with('{') {
        ""
    } else {
        ","
    }
}

fn row_of(alloc: Global, row: &str) -> Result<Option<PagerRow>, OutOfMemory> {
    if row.is_empty() {
        return Ok(None);
    }
    let (tokens, limit) = match row.split_once('/') {
        Some((tokens, limit)) => (tokens, Some(Text::from_str(alloc, limit)?)),
        None => (row, None),
    };
    let mut inputs = List::new(alloc);
    let mut outputs = List::new(alloc);
    for token in tokens.split(' ') {
        inputs.push(Text::from_str(alloc, token)?)?;
        outputs.push(Text::from_str(alloc, token)?)?;
    }
    let mut results = List::new(alloc);
    results.push(Text::from_str(alloc, "Items")?)?;
    Ok(Some(PagerRow {
        inputs,
        outputs,
        results,
        limit,
        more: None,
        fixed: List::new(alloc),
    }))
}

/// A command, its settings and the options behind it.
fn head_text(alloc: Global, head: &CommandHead) -> Result<Text, OutOfMemory> {
    let (service, operation) = (&head.service, &head.operation);
    let waits = if head.wait { "waits for " } else { "" };
    let text = format!(in alloc; "{service} {waits}{operation}")?;
    let mut text = Text::from_string(text);
    for (name, value) in head.pairs.iter() {
        text.push_str(format!(in alloc; "; {name}={value}")?.as_str())?;
    }
    if !head.sign {
        text.push_str("; unsigned")?;
    }
    if !head.paginate {
        text.push_str("; one page")?;
    }
    for group in head.tail.iter() {
        push_group(alloc, &mut text, group)?;
    }
    Ok(text)
}

fn push_group(alloc: Global, text: &mut Text, group: &Group) -> Result<(), OutOfMemory> {
    let option = &group.option;
    text.push_str(format!(in alloc; "; --{option}")?.as_str())?;
    if let Some(value) = &group.joined {
        text.push_str(format!(in alloc; "='{value}'")?.as_str())?;
    }
    push_words(alloc, text, &group.words)
}

fn push_words(alloc: Global, text: &mut Text, words: &List<Text>) -> Result<(), OutOfMemory> {
    for word in words.iter() {
        text.push_str(format!(in alloc; " '{word}'")?.as_str())?;
    }
    Ok(())
}

/// What a line says, in parts: `#` and a member's place with its words.
fn line_text(alloc: Global, line: &Line) -> Result<Text, OutOfMemory> {
    let mut text = Text::from_str(alloc, "line")?;
    for arg in line.args.iter() {
        let (member, no) = (arg.member, if arg.no { " no" } else { "" });
        text.push_str(format!(in alloc; "; #{member}{no}")?.as_str())?;
        push_words(alloc, &mut text, &arg.words)?;
    }
    if let Some(json) = &line.input_json {
        text.push_str(format!(in alloc; "; json '{json}'")?.as_str())?;
    }
    if let Some(start) = &line.start {
        text.push_str(format!(in alloc; "; start '{start}'")?.as_str())?;
    }
    if let Some(max) = line.max {
        text.push_str(format!(in alloc; "; max {max}")?.as_str())?;
    }
    if let Some(page) = line.page {
        text.push_str(format!(in alloc; "; page {page}")?.as_str())?;
    }
    Ok(text)
}

/// The kind of a fault and what is told of it.
fn fault_text(alloc: Global, fault: &UsageFault) -> Result<Text, OutOfMemory> {
    let kind = match fault {
        UsageFault::UnknownOption(_) => "UnknownOption",
        UsageFault::MissingValue(_) => "MissingValue",
        UsageFault::NoCommand => "NoCommand",
        UsageFault::UnknownService(_) => "UnknownService",
        UsageFault::UnknownOperation(_) => "UnknownOperation",
        UsageFault::UnknownArgument(_) => "UnknownArgument",
        UsageFault::MissingArguments(_) => "MissingArguments",
        UsageFault::ExtraWord(_) => "ExtraWord",
        UsageFault::BadChoice(_) => "BadChoice",
        UsageFault::BadCount(_) => "BadCount",
        UsageFault::PaginateConflict(_) => "PaginateConflict",
        UsageFault::OutOfMemory => "OutOfMemory",
    };
    told(alloc, &format_args!("{kind}: {fault}"))
}
