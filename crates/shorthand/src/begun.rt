ghost use Rattle.std.specs.Prelude.{◌≡◌, IfOk};
ghost use Rattle.shorthand.specs.Grammar.{value_of};
ghost use Rattle.shorthand.specs.Reading.{with_pair, with_value};

use crate::Short;
use crate::fields::FieldTable;
use std::alloc::Global;
use texts::{List, OutOfMemory, Text};

/// A pair of a text: its key, the values that it has so far, and the pairs before it.
#[derive(Drop)]
pub struct Begun {
    pub fields: FieldTable,
    pub key: Text,
    pub values: List<Short>,
}

/// What values are read for.
#[derive(Drop)]
pub enum Group {
    /// A list in brackets, with the values so far.
    Items(List<Short>),
    Pair(Begun),
}

/// The value of a pair: none is the empty word, and more than one are a list.
fn value_of(alloc: Global, values: List<Short>) -> Short
    ensures { result ≡ value_of values }
{
    let mut values = values.into_vec();
    if values.len() > 1 {
        return Short::Items(List::from_vec(values));
    }
    match values.pop() {
        Some(value) => value,
        None => Short::Word(Text::new(alloc)),
    }
}

/// The pairs of a text with the one that was begun.
pub fn with_pair(alloc: Global, begun: Begun) -> Result<FieldTable, OutOfMemory>
    ensures { IfOk result (λ table. table ≡ with_pair begun) }
{
    let Begun {
        fields,
        key,
        values,
    } = begun;
    fields.with(key, value_of(alloc, values))
}

/// What values are read for, with one more value.
pub fn with_value(group: Group, value: Short) -> Result<Group, OutOfMemory>
    ensures { IfOk result (λ more. more ≡ with_value group value) }
{
    match group {
        Group::Items(mut items) => {
            items.push(value)?;
            Ok(Group::Items(items))
        }
        Group::Pair(mut begun) => {
            begun.values.push(value)?;
            Ok(Group::Pair(begun))
        }
    }
}
