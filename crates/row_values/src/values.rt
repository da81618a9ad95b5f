use json_doc::{Decimal, Doc, List, OutOfMemory, Pair, Pairs, copy, read};
use std::alloc::Global;
use typed_value::Typed;

/// The value that a text in JSON is written for, where it is one.
pub fn value_of(alloc: Global, text: &[u8]) -> Result<Option<Typed>, OutOfMemory> {
    match read(alloc, text) {
        Ok(doc) => Ok(Some(typed(alloc, &doc)?)),
        Err(_) => Ok(None),
    }
}

#[cycle(typing)]
fn typed(alloc: Global, doc: &Doc) -> Result<Typed, OutOfMemory> {
    match doc {
        Doc::Null => Ok(Typed::Null),
        Doc::Flag(flag) => Ok(Typed::Flag(*flag)),
        Doc::Number(n) => Ok(number(n)),
        Doc::Str(text) => Ok(Typed::Text(text.copy(alloc)?)),
        Doc::Items(items) => {
            let mut made = List::new(alloc);
            for item in items.as_slice() {
                made.push(typed(alloc, item)?)?;
            }
            Ok(Typed::Items(made))
        }
        Doc::Fields(fields) => typed_fields(alloc, fields.as_slice()),
    }
}

#[cycle(typing)]
fn typed_fields(alloc: Global, fields: &[Pair<Doc>]) -> Result<Typed, OutOfMemory> {
    if let [field] = fields {
        match (field.key.as_str(), &field.value) {
            ("$blob", Doc::Str(text)) => {
                return Ok(Typed::Blob(text.copy(alloc)?.into_bytes()));
            }
            ("$moment", Doc::Number(n)) => return Ok(moment(n)),
            ("$any", doc) => return Ok(Typed::Any(copy(alloc, doc)?)),
            _ => {}
        }
    }
    let mut made = Pairs::new(alloc);
    for field in fields {
        made.put(field.key.copy(alloc)?, typed(alloc, &field.value)?)?;
    }
    Ok(Typed::Fields(made))
}

fn number(n: &Decimal) -> Typed {
    n.whole().map_or(Typed::Number(*n), Typed::Int)
}

fn moment(n: &Decimal) -> Typed {
    n.whole().map_or(Typed::Null, Typed::Moment)
}
