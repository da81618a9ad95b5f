//! Model files, what they say of operations, and rows of paginators and waiters.
use json_doc::{Doc, List, OutOfMemory, Text, read};
use model_files::{ModelFault, Paginators, Waiters, command_name};
use row_words::{text_of, told};
use service_model::{Member, Model, Refusal, Shape, ShapeId};
use std::alloc::Global;

pub fn command(alloc: Global, name: &[u8]) -> Result<Text, OutOfMemory> {
    command_name(alloc, &text_of(alloc, name)?)
}

/// Whether a file of waiters is read, or its fault.
pub fn waiters_fault(alloc: Global, file: &[u8]) -> Result<Text, OutOfMemory> {
    match document(alloc, file) {
        Some(doc) => fault_of(alloc, Waiters::read(alloc, &doc)),
        None => Text::from_str(alloc, "no JSON"),
    }
}

/// Whether a file of paginators is read, or its fault.
pub fn paginators_fault(alloc: Global, file: &[u8]) -> Result<Text, OutOfMemory> {
    match document(alloc, file) {
        Some(doc) => fault_of(alloc, Paginators::read(alloc, &doc)),
        None => Text::from_str(alloc, "no JSON"),
    }
}

/// Whether a model is read, or its fault.
pub fn model_fault(alloc: Global, file: &[u8]) -> Result<Text, OutOfMemory> {
    match document(alloc, file) {
        Some(doc) => fault_of(alloc, Model::read(alloc, &doc)),
        None => Text::from_str(alloc, "no JSON"),
    }
}

/// Why the operation of a command can't be called.
pub fn refusal(alloc: Global, file: &[u8], command: &[u8]) -> Result<Text, OutOfMemory> {
    let Some(Ok(model)) = document(alloc, file).map(|doc| Model::read(alloc, &doc)) else {
        return Text::from_str(alloc, "no model");
    };
    let Some(op) = model.operation(&text_of(alloc, command)?) else {
        return Text::from_str(alloc, "no operation");
    };
    let text = match model.admit(op) {
        Ok(()) => format!(in alloc; "it can be called")?,
        Err(Refusal::SameArgument(name)) => format!(in alloc; "SameArgument {name}")?,
        Err(refusal) => format!(in alloc; "{refusal:?}")?,
    };
    Ok(Text::from_string(text))
}

/// What a model says of its whole service.
pub fn metadata(alloc: Global, file: &[u8]) -> Result<Text, OutOfMemory> {
    let Some(Ok(model)) = document(alloc, file).map(|doc| Model::read(alloc, &doc)) else {
        return Text::from_str(alloc, "no model");
    };
    let of = model.metadata();
    let (protocol, version, target) = (of.protocol, &of.json_version, &of.target_prefix);
    let (endpoint, signing) = (&of.endpoint_prefix, &of.signing_name);
    let head = format!(in alloc; "{protocol:?}, version '{version}', target '{target}'")?;
    let mut text = Text::from_string(head);
    text.push_str(format!(in alloc; ", endpoint {endpoint}")?.as_str())?;
    if let Some(name) = signing {
        text.push_str(format!(in alloc; ", signed as {name}")?.as_str())?;
    }
    Ok(text)
}

/// What a model says of the operation of a command, a line each.
pub fn operation(alloc: Global, file: &[u8], command: &[u8]) -> Result<Text, OutOfMemory> {
    let Some(Ok(model)) = document(alloc, file).map(|doc| Model::read(alloc, &doc)) else {
        return Text::from_str(alloc, "no model");
    };
    let Some(op) = model.operation(&text_of(alloc, command)?) else {
        return Text::from_str(alloc, "no operation");
    };
    let shapes = model.shape_count();
    let fixed = op.fixed_params.len();
    let (method, uri, unsigned) = (&op.method, &op.uri, op.unsigned);
    let head = format!(in alloc;
        "{method} {uri}, unsigned {unsigned}, {fixed} fixed of {shapes} shapes"
    )?;
    let mut lines = Text::from_string(head);
    for id in [op.input, op.output] {
        if let Some(id) = id {
            write_shape(alloc, &mut lines, &model, id)?;
        }
    }
    Ok(lines)
}

fn write_shape(
    alloc: Global,
    lines: &mut Text,
    model: &Model,
    id: ShapeId,
) -> Result<(), OutOfMemory> {
    let Some(shape) = shape_at(model, id) else {
        return Ok(());
    };
    let (name, kind, required, union) = (
        &shape.name,
        shape.kind,
        shape.required.len(),
        shape.is_union,
    );
    lines.push_str(format!(in alloc;
        "\n{name} {kind:?}, {required} required, union {union}"
    )?.as_str())?;
    for member in shape.members.as_slice() {
        lines.push_str(member_line(alloc, model, member)?.as_str())?;
    }
    Ok(())
}

fn member_line(alloc: Global, model: &Model, member: &Member) -> Result<String, OutOfMemory> {
    let (name, wire, place, time) = (&member.name, &member.wire, member.location, member.time);
    let Some(shape) = shape_at(model, member.shape) else {
        return Ok(String::new(alloc));
    };
    let (kind, min, token, has) = (
        shape.kind,
        shape.min,
        member.token,
        member.context.is_some(),
    );
    let line = format!(in alloc;
        "\n  {name} as {wire}: {kind:?} at {place:?}, {time:?}, min {min:?}, token {token}, parameter {has}"
    )?;
    Ok(line)
}

fn shape_at(model: &Model, id: ShapeId) -> Option<&Shape> {
    if id.0 < model.shape_count() {
        Some(model.shape(id))
    } else {
        None
    }
}

/// A paginator's row.
pub fn row(alloc: Global, file: &[u8], operation: &[u8]) -> Result<Text, OutOfMemory> {
    let Some(Ok(rows)) = document(alloc, file).map(|doc| Paginators::read(alloc, &doc)) else {
        return Text::from_str(alloc, "no paginators");
    };
    let Some(row) = rows.row(&text_of(alloc, operation)?) else {
        return Text::from_str(alloc, "no row");
    };
    let inputs = joined(alloc, &row.inputs)?;
    let outputs = joined(alloc, &row.outputs)?;
    let results = joined(alloc, &row.results)?;
    let has_limit = row.limit.is_some();
    let text = format!(in alloc; "{inputs}; {outputs}; {results}; limit {has_limit}")?;
    Ok(Text::from_string(text))
}

/// A waiter.
pub fn waiter(alloc: Global, file: &[u8], command: &[u8]) -> Result<Text, OutOfMemory> {
    let Some(Ok(rows)) = document(alloc, file).map(|doc| Waiters::read(alloc, &doc)) else {
        return Text::from_str(alloc, "no waiters");
    };
    let Some(row) = rows.row(&text_of(alloc, command)?) else {
        return Text::from_str(alloc, "no waiter");
    };
    let (operation, delay, tries) = (&row.operation, row.delay, row.tries);
    let head = format!(in alloc; "{operation} every {delay} s, {tries} times")?;
    let mut text = Text::from_string(head);
    for acceptor in row.acceptors.as_slice() {
        let (state, matcher) = (acceptor.state, acceptor.matcher);
        text.push_str(format!(in alloc; ", {state:?} by {matcher:?}")?.as_str())?;
    }
    Ok(text)
}

fn joined(alloc: Global, texts: &List<Text>) -> Result<String, OutOfMemory> {
    let mut made = String::new(alloc);
    for text in texts.as_slice() {
        made.push_str(text.as_str())?;
        made.push(' ')?;
    }
    Ok(made)
}

fn document(alloc: Global, file: &[u8]) -> Option<Doc> {
    read(alloc, file).ok()
}

fn fault_of<T: Drop>(alloc: Global, read: Result<T, ModelFault>) -> Result<Text, OutOfMemory> {
    match read {
        Ok(_) => Text::from_str(alloc, "read"),
        Err(fault) => told(alloc, &fault),
    }
}
