//! Typed values: their faults, their tables, and those of page tokens. The shapes of a model are given,
//! and the value is judged at the one that is called `Top`.
ghost use Rattle.std.specs.Prelude.{◌<◌, length, IfSome};

use json_doc::{Decimal, Doc, List, OutOfMemory, Pair, Pairs, Text, compact, copy, read};
use row_values::value_of;
use row_words::told;
use service_model::{Model, ShapeId};
use std::alloc::Global;
use typed_value::{
    Flat, Typed, ValueFault, fault_line, fits_flat, from_wire, report, to_doc, validate,
    validate_flat,
};

/// The faults of a value, or that it fits.
pub fn faults(alloc: Global, shapes: &[u8], value: &[u8]) -> Result<Text, OutOfMemory> {
    let (Some(model), Some(value)) = (model_of(alloc, shapes)?, value_of(alloc, value)?) else {
        return Text::from_str(alloc, "no model or value");
    };
    let Some(top) = top_of(&model) else {
        return Text::from_str(alloc, "no shape");
    };
    let faults = validate(alloc, &model, top, &value)?;
    if faults.is_empty() {
        return Text::from_str(alloc, "fits");
    }
    report(alloc, &model, &faults)
}

/// How many nodes a value has, whether it fits, and the first of its faults.
pub fn table(alloc: Global, shapes: &[u8], value: &[u8]) -> Result<Text, OutOfMemory> {
    let (Some(model), Some(value)) = (model_of(alloc, shapes)?, value_of(alloc, value)?) else {
        return Text::from_str(alloc, "no model or value");
    };
    let Some(top) = top_of(&model) else {
        return Text::from_str(alloc, "no shape");
    };
    table_at(alloc, &model, top, &value)
}

fn table_at(alloc: Global, model: &Model, top: ShapeId, value: &Typed) -> Result<Text, OutOfMemory>
    requires { top.0 < length model.now.shapes }
{
    let flat = Flat::of(alloc, value)?;
    let fits = fits_flat(model, top, &flat);
    let faults = validate_flat(alloc, model, top, &flat)?;
    let first = first_line(alloc, model, &faults)?;
    summary(alloc, flat.count(), fits, faults.len(), &first)
}

fn summary(
    alloc: Global,
    count: u64,
    fits: bool,
    number: usize,
    first: &Text,
) -> Result<Text, OutOfMemory> {
    let text = format!(in alloc; "{count} nodes, fits {fits}, {number} faults{first}")?;
    Ok(Text::from_string(text))
}

fn first_line(
    alloc: Global,
    model: &Model,
    faults: &List<ValueFault>,
) -> Result<Text, OutOfMemory> {
    let mut text = Text::new(alloc);
    if let Some(fault) = faults.get(0) {
        text.push_str(": ")?;
        text.push_str(fault_line(alloc, model, fault)?.as_str())?;
    }
    Ok(text)
}

/// The value of a page token, or that it has none.
pub fn of_token(alloc: Global, shapes: &[u8], document: &[u8]) -> Result<Text, OutOfMemory> {
    let (Some(model), Some(doc)) = (model_of(alloc, shapes)?, read(alloc, document).ok()) else {
        return Text::from_str(alloc, "no model or document");
    };
    let Some(top) = top_of(&model) else {
        return Text::from_str(alloc, "no shape");
    };
    match from_wire(alloc, &model, top, &doc)? {
        Some(value) => compact(alloc, &written(alloc, &value)?),
        None => Text::from_str(alloc, "no value"),
    }
}

/// The document of a scalar.
pub fn to_document(alloc: Global, value: &[u8]) -> Result<Text, OutOfMemory> {
    let Some(value) = value_of(alloc, value)? else {
        return Text::from_str(alloc, "no value");
    };
    match &value {
        Typed::Text(_) | Typed::Int(_) | Typed::Number(_) | Typed::Flag(_) => {
            compact(alloc, &to_doc(alloc, &value)?)
        }
        _ => Text::from_str(alloc, "no scalar"),
    }
}

fn model_of(alloc: Global, shapes: &[u8]) -> Result<Option<Model>, OutOfMemory> {
    let head =
        r#"{"metadata":{"protocol":"rest-json","endpointPrefix":"x"},"operations":{},"shapes":"#;
    let mut file = Vec::from_slice(alloc, head.as_bytes())?;
    file.extend_from_slice(shapes)?;
    file.push(b'}')?;
    match read(alloc, file.as_slice()) {
        Ok(doc) => match Model::read(alloc, &doc) {
            Ok(model) => Ok(Some(model)),
            Err(fault) => {
                told(alloc, &fault)?;
                Ok(None)
            }
        },
        Err(_) => Ok(None),
    }
}

fn top_of(model: &Model) -> Option<ShapeId>
    ensures { IfSome result (λ id. id.0 < length model.now.shapes) }
{
    for number in 0..model.shape_count() {
        if model.shape(ShapeId(number)).name.is("Top") {
            return Some(ShapeId(number));
        }
    }
    None
}

/// A value as JSON.
#[cycle(writing)]
fn written(alloc: Global, value: &Typed) -> Result<Doc, OutOfMemory> {
    match value {
        Typed::Null => Ok(Doc::Null),
        Typed::Text(_) | Typed::Int(_) | Typed::Number(_) | Typed::Flag(_) => to_doc(alloc, value),
        Typed::Items(items) => {
            let mut made = List::new(alloc);
            for item in items.as_slice() {
                made.push(written(alloc, item)?)?;
            }
            Ok(Doc::Items(made))
        }
        Typed::Fields(fields) => written_fields(alloc, fields.as_slice()),
        Typed::Any(doc) => copy(alloc, doc),
        Typed::Moment(moment) => Ok(Doc::Number(Decimal::of(*moment))),
        Typed::Blob(_) => Ok(Doc::Str(Text::from_str(alloc, "a blob")?)),
    }
}

#[cycle(writing)]
fn written_fields(alloc: Global, fields: &[Pair<Typed>]) -> Result<Doc, OutOfMemory> {
    let mut made = Pairs::new(alloc);
    for field in fields {
        made.put(field.key.copy(alloc)?, written(alloc, &field.value)?)?;
    }
    Ok(Doc::Fields(made))
}
