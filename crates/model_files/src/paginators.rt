ghost use Rattle.std.specs.Prelude.{◌≡◌, ◌==◌, ◌++◌, [], length, IfSome, IsTrue, OnOk};
ghost use Rattle.std.specs.Option.{option_copied};
ghost use Rattle.std.specs.Str.{chars};
ghost use Rattle.texts.specs.Ascii.{is_ascii_text};
ghost use Rattle.texts.specs.Calls.{Answers};
ghost use Rattle.model_files.specs.Faults.{is_memory};
ghost use Rattle.model_files.specs.Paginators.{queries_of, queries_at, maybe_queries, row_with, row_of, row_before, IsPagerRow, rows_of, paginators_of, row_named};

use crate::ModelFault;
use crate::fault::inside;
use crate::reading::{
    copied, maybe_text, needed, object, object_at, texts, texts_at, wrong, wrong_kind,
};
use json_doc::{Doc, List, OutOfMemory, Pairs, Text};
use std::alloc::Global;
use std::marker::Model;

/// How an operation's reply goes on: a row of botocore's `paginators-1.json`.
#[derive(Debug, Drop)]
pub struct PagerRow {
    /// The members of the input that take the tokens.
    pub inputs: List<Text>,
    /// Where the tokens stand in the output, as queries: as many.
    pub outputs: List<Text>,
    /// Where the results stand in the output, as queries.
    pub results: List<Text>,
    /// The member of the input that takes the length of a page.
    pub limit: Option<Text>,
    /// Where the output says whether there is more, as a query.
    pub more: Option<Text>,
    /// What all pages share, as queries.
    pub fixed: List<Text>,
}

/// A row and the name of its operation.
#[derive(Debug, Drop)]
pub struct NamedRow {
    operation: Text,
    row: PagerRow,
}

/// The rows of a service's paginators.
#[derive(Debug, Drop)]
pub struct Paginators {
    rows: List<NamedRow>,
}

impl Model for Paginators {
    ghost use Rattle.std.specs.Prelude.{List as Seq};
    ghost use Rattle.model_files.specs.declared.paginators.NamedRow.{NamedRow as Named};

    ghost Value = { Seq Named };

    ghost view = { λ paginators. paginators.rows };

    ghost use Rattle.std.specs.List.{All};
    ghost use Rattle.model_files.specs.Paginators.{IsPagerRow};

    ghost invariant = { λ paginators. All (λ named. IsPagerRow named.row) paginators.rows };
}

impl Paginators {
    /// Reads the rows from their document.
    #[tactic(auto, using(crate::proofs::Each::gives_inside), unfolding(crate::specs::Paginators::paginators_of))]
    pub fn read(alloc: Global, doc: &Doc) -> Result<Paginators, ModelFault>
        ensures { Answers is_memory (λ rows. rows) result (paginators_of doc.now) }
    {
        let fields = object(doc)?;
        let pairs = object_at(alloc, fields, "pagination")?;
        let rows = inside(alloc, "pagination", read_rows(alloc, pairs))?;
        Ok(Paginators { rows })
    }

    /// The row of the operation with this name in its model.
    pub fn row(&self, op: &Text) -> Option<&PagerRow>
        ensures first { option_copied result ≡ row_named op.now self.now }
        ensures whole { IfSome result (λ row. IsPagerRow row.now) }
    {
        self.find(op.as_str())
    }

    fn find(&self, operation: &str) -> Option<&PagerRow>
        ensures first { option_copied result ≡ row_named (chars operation.now) self.now }
        ensures whole { IfSome result (λ row. IsPagerRow row.now) }
    {
        for named in self.rows.as_slice() {
            if named.operation.is(operation) {
                return Some(&named.row);
            }
        }
        None
    }
}

fn read_rows(alloc: Global, pairs: &Pairs<Doc>) -> Result<List<NamedRow>, ModelFault>
    ensures { Answers is_memory (λ rows. rows) result (rows_of pairs.now) }
{
    let mut rows = List::new(alloc);
    for pair in pairs.as_slice() {
        let row = inside(alloc, pair.key.as_str(), read_row(alloc, &pair.value))?;
        push_row(alloc, &mut rows, &pair.key, row)?;
    }
    Ok(rows)
}

/// Puts a row at the end, where there is one.
fn push_row(
    alloc: Global,
    rows: &mut List<NamedRow>,
    operation: &Text,
    row: Option<PagerRow>,
) -> Result<(), OutOfMemory>
    ensures { OnOk result (rows.new ≡ rows.old ++ row_before operation.now row []) }
{
    if let Some(row) = row {
        rows.push(NamedRow {
            operation: operation.copy(alloc)?,
            row,
        })?;
    }
    Ok(())
}

/// A row; one without results is none, but its other fields are judged.
#[tactic(auto, unfolding(crate::specs::Paginators::row_of))]
fn read_row(alloc: Global, doc: &Doc) -> Result<Option<PagerRow>, ModelFault>
    ensures { Answers is_memory (λ row. row) result (row_of doc.now) }
{
    let fields = object(doc)?;
    let inputs = read_queries(alloc, fields, "input_token")?;
    let outputs = read_queries(alloc, fields, "output_token")?;
    if !are_as_many(&inputs, &outputs) {
        return Err(wrong(alloc, "output_token"));
    }
    row_with(alloc, fields, inputs, outputs)
}

fn are_as_many(inputs: &List<Text>, outputs: &List<Text>) -> bool
    ensures { result ≡ (length inputs.now == length outputs.now) }
{
    inputs.len() == outputs.len()
}

/// The row with these tokens.
#[tactic(auto, unfolding(crate::specs::Paginators::row_with))]
fn row_with(
    alloc: Global,
    fields: &Pairs<Doc>,
    inputs: List<Text>,
    outputs: List<Text>,
) -> Result<Option<PagerRow>, ModelFault>
    ensures { Answers is_memory (λ row. row) result (row_with inputs outputs fields.now) }
{
    let results = maybe_queries(alloc, fields, "result_key")?;
    let limit = maybe_text(alloc, fields, "limit_key")?;
    let more = maybe_text(alloc, fields, "more_results")?;
    let fixed = texts_at(alloc, fields, "non_aggregate_keys")?;
    let Some(results) = results else {
        return Ok(None);
    };
    Ok(Some(PagerRow {
        inputs,
        outputs,
        results,
        limit: copied(alloc, limit)?,
        more: copied(alloc, more)?,
        fixed,
    }))
}

/// The text or texts at a key.
#[tactic(auto, using(crate::proofs::Each::gives_inside), unfolding(crate::specs::Paginators::queries_at))]
fn read_queries(alloc: Global, fields: &Pairs<Doc>, key: &str) -> Result<List<Text>, ModelFault>
    requires { IsTrue (is_ascii_text key.now) }
    ensures { Answers is_memory (λ texts. texts) result (queries_at key.now fields.now) }
{
    let doc = needed(alloc, fields, key)?;
    inside(alloc, key, queries(alloc, doc))
}

/// The text or texts at a key, where something stands there.
#[tactic(auto, using(crate::proofs::Each::gives_inside), unfolding(crate::specs::Paginators::maybe_queries))]
fn maybe_queries(
    alloc: Global,
    fields: &Pairs<Doc>,
    key: &str,
) -> Result<Option<List<Text>>, ModelFault>
    requires { IsTrue (is_ascii_text key.now) }
    ensures { Answers is_memory (λ texts. texts) result (maybe_queries key.now fields.now) }
{
    let Some(doc) = fields.get(key) else {
        return Ok(None);
    };
    Ok(Some(inside(alloc, key, queries(alloc, doc))?))
}

/// A text, or a list of texts with at least one.
#[tactic(auto, unfolding(crate::specs::Paginators::queries_of))]
fn queries(alloc: Global, doc: &Doc) -> Result<List<Text>, ModelFault>
    ensures { Answers is_memory (λ texts. texts) result (queries_of doc.now) }
{
    if let Doc::Str(text) = doc {
        let mut one = List::new(alloc);
        one.push(text.copy(alloc)?)?;
        return Ok(one);
    }
    let texts = texts(alloc, doc)?;
    if texts.is_empty() {
        return Err(wrong_kind());
    }
    Ok(texts)
}
