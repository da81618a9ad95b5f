//! The function `merge`.
ghost use Rattle.std.specs.Prelude.{◌≡◌, [], IfOk, OnOk};
ghost use Rattle.json_doc.specs.Gathered.{pairs_of};
ghost use Rattle.json_doc.specs.Grammar.{put_all};
ghost use Rattle.texts.specs.Keys.{put};
ghost use Rattle.texts.specs.Calls.{Answers};
ghost use Rattle.jmes_eval.specs.Answers.{is_memory};
ghost use Rattle.jmes_eval.specs.Many.{merged_after};
ghost use Rattle.jmes_eval.specs.Inside.{seen_values};

use crate::QueryFault;
use crate::kinds::fields;
use crate::seen::Seen;
use indexmap::IndexMap;
use json_doc::{Doc, OutOfMemory, Pair, Pairs, Text, copy};
use std::alloc::Global;

/// The pairs of objects, one after another: later values win, first places stay.
pub(crate) fn merge(alloc: Global, values: &[Option<Seen<'_>>]) -> Result<Doc, QueryFault>
    ensures { Answers is_memory (λ x. x) result (merged_after [] (seen_values values.now)) }
{
    let mut made = IndexMap::new(alloc);
    for value in values {
        if let Some(seen) = value {
            put_all(alloc, &mut made, fields(seen.doc())?.as_slice())?;
        }
    }
    Ok(Doc::Fields(gathered(alloc, made)?))
}

/// Puts copies of pairs one after another. The table finds each key at once, however many there are.
fn put_all(
    alloc: Global,
    made: &mut IndexMap<Text, Doc>,
    fields: &[Pair<Doc>],
) -> Result<(), OutOfMemory>
    ensures { OnOk result (pairs_of made.new.entries ≡ put_all (pairs_of made.old.entries) fields.now) }
{
    for field in fields {
        put_entry(made, field.key.copy(alloc)?, copy(alloc, &field.value)?)?;
    }
    Ok(())
}

fn put_entry(made: &mut IndexMap<Text, Doc>, key: Text, value: Doc) -> Result<(), OutOfMemory>
    ensures { OnOk result (pairs_of made.new.entries ≡ put (pairs_of made.old.entries) key value) }
{
    made.insert(key, value)?;
    Ok(())
}

/// The entries of a table as pairs.
fn gathered(alloc: Global, table: IndexMap<Text, Doc>) -> Result<Pairs<Doc>, OutOfMemory>
    ensures { IfOk result (λ pairs. pairs ≡ pairs_of table.entries) }
{
    let mut pairs = Pairs::with_capacity(alloc, table.len())?;
    for (key, value) in table {
        pairs.push_new(key, value)?;
    }
    Ok(pairs)
}
