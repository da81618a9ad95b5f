//! What is told of faults.
ghost use Rattle.std.specs.Prelude.{◌≡◌, ◌++◌, IfOk, OnOk, IsTrue};
ghost use Rattle.texts.specs.Ascii.{is_ascii_text};
ghost use Rattle.typed_value.specs.Lines.{named, quoted, kind_word, names_text, missing_line, unknown_line, wrong_type_line, short_line, small_line, line_of, report_of};

use crate::ValueFault;
use json_doc::{List, OutOfMemory, Text};
use service_model::{Kind, Member, Model, ShapeId};
use std::alloc::Global;

/// The faults of a value, a line each behind a title.
pub fn report(alloc: Global, model: &Model, faults: &List<ValueFault>) -> Result<Text, OutOfMemory>
    ensures { IfOk result (λ text. text ≡ report_of model.now.shapes faults.now) }
{
    let mut out = Text::new(alloc);
    out.push_ascii("Parameter validation failed:")?;
    for fault in faults.as_slice() {
        out.push('\n')?;
        write_line(alloc, &mut out, model, fault)?;
    }
    Ok(out)
}

/// The line of a fault, in botocore's words.
pub fn fault_line(alloc: Global, model: &Model, fault: &ValueFault) -> Result<Text, OutOfMemory>
    ensures { IfOk result (λ line. line ≡ line_of model.now.shapes fault.now) }
{
    let mut out = Text::new(alloc);
    write_line(alloc, &mut out, model, fault)?;
    Ok(out)
}

fn write_line(
    alloc: Global,
    out: &mut Text,
    model: &Model,
    fault: &ValueFault,
) -> Result<(), OutOfMemory>
    ensures { OnOk result (out.new ≡ out.old ++ line_of model.now.shapes fault.now) }
{
    match fault {
        ValueFault::Missing(path, name) => write_missing(out, path, name),
        ValueFault::Unknown(path, name, id) => write_unknown(out, model, path, name, *id),
        ValueFault::WrongType(path, kind) => write_wrong_type(out, path, *kind),
        ValueFault::Short(path, count, least) => write_short(alloc, out, path, *count, *least),
        ValueFault::Small(path, number, least) => write_small(alloc, out, path, *number, *least),
        ValueFault::Union(path) => {
            out.push_ascii("Invalid number of members in union ")?;
            write_path(out, path)
        }
    }
}

fn write_missing(out: &mut Text, path: &Text, name: &Text) -> Result<(), OutOfMemory>
    ensures { OnOk result (out.new ≡ out.old ++ missing_line path.now name.now) }
{
    out.push_ascii("Missing required parameter in ")?;
    write_path(out, path)?;
    out.push_ascii(": ")?;
    write_quoted(out, name)
}

fn write_unknown(
    out: &mut Text,
    model: &Model,
    path: &Text,
    name: &Text,
    id: ShapeId,
) -> Result<(), OutOfMemory>
    ensures { OnOk result (out.new ≡ out.old ++ unknown_line model.now.shapes path.now name.now id) }
{
    out.push_ascii("Unknown parameter in ")?;
    write_path(out, path)?;
    out.push_ascii(": ")?;
    write_quoted(out, name)?;
    out.push_ascii(", must be one of: ")?;
    if id.0 < model.shape_count() {
        write_names(out, model.shape(id).members.as_slice())?;
    }
    Ok(())
}

/// The names of members, with a comma between each two.
fn write_names(out: &mut Text, members: &[Member]) -> Result<(), OutOfMemory>
    ensures { OnOk result (out.new ≡ out.old ++ names_text members.now) }
{
    let mut is_first = true;
    for member in members {
        if !is_first {
            out.push_ascii(", ")?;
        }
        out.push_str(member.name.as_str())?;
        is_first = false;
    }
    Ok(())
}

fn write_wrong_type(out: &mut Text, path: &Text, kind: Kind) -> Result<(), OutOfMemory>
    ensures { OnOk result (out.new ≡ out.old ++ wrong_type_line path.now kind) }
{
    out.push_ascii("Invalid type for parameter ")?;
    write_path(out, path)?;
    out.push_ascii(", expected ")?;
    out.push_ascii(kind_word(kind))
}

fn write_short(
    alloc: Global,
    out: &mut Text,
    path: &Text,
    count: u64,
    least: i64,
) -> Result<(), OutOfMemory>
    ensures { OnOk result (out.new ≡ out.old ++ short_line path.now count least) }
{
    out.push_ascii("Invalid length for parameter ")?;
    write_path(out, path)?;
    out.push_ascii(", value: ")?;
    out.push_str(format!(in alloc; "{count}")?.as_str())?;
    out.push_ascii(", valid min length: ")?;
    out.push_str(format!(in alloc; "{least}")?.as_str())
}

fn write_small(
    alloc: Global,
    out: &mut Text,
    path: &Text,
    number: i64,
    least: i64,
) -> Result<(), OutOfMemory>
    ensures { OnOk result (out.new ≡ out.old ++ small_line path.now number least) }
{
    out.push_ascii("Invalid value for parameter ")?;
    write_path(out, path)?;
    out.push_ascii(", value: ")?;
    out.push_str(format!(in alloc; "{number}")?.as_str())?;
    out.push_ascii(", valid min value: ")?;
    out.push_str(format!(in alloc; "{least}")?.as_str())
}

fn write_path(out: &mut Text, path: &Text) -> Result<(), OutOfMemory>
    ensures { OnOk result (out.new ≡ out.old ++ named path.now) }
{
    if path.is_empty() {
        out.push_ascii("input")
    } else {
        out.push_str(path.as_str())
    }
}

fn write_quoted(out: &mut Text, name: &Text) -> Result<(), OutOfMemory>
    ensures { OnOk result (out.new ≡ out.old ++ quoted name.now) }
{
    out.push('"')?;
    out.push_str(name.as_str())?;
    out.push('"')
}

/// The `type` of a kind.
fn kind_word(kind: Kind) -> &'static str
    ensures word { result.now ≡ kind_word kind }
    ensures ascii { IsTrue (is_ascii_text result.now) }
{
    match kind {
        Kind::Structure => "structure",
        Kind::List => "list",
        Kind::Map => "map",
        Kind::Str => "string",
        Kind::Integer => "integer",
        Kind::Long => "long",
        Kind::Float => "float",
        Kind::Double => "double",
        Kind::Boolean => "boolean",
        Kind::Blob => "blob",
        Kind::Timestamp => "timestamp",
    }
}
