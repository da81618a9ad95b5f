ghost use Rattle.std.specs.Prelude.{◌≡◌, map, Some, IfOk};
ghost use Rattle.json_doc.specs.declared.doc.Doc.TheViews.{out-Doc};
ghost use Rattle.jmes_eval.specs.Equality.{same};
ghost use Rattle.jmes_eval.specs.Kinds.{items_of};
ghost use Rattle.jmes_eval.specs.Meaning.{meaning};
ghost use Rattle.wait_plan.specs.Matches.{told, matches, value_of, passes, all_equal, any_equals, is_status, is_error};

use crate::plan::{Subject, Test, WaitPlan};
use jmes_eval::{QueryFault, same, search};
use jmes_syntax::Expr;
use json_doc::{Doc, List, OutOfMemory, Text};
use std::alloc::Global;

/// What a call of a waiter's operation came to.
#[derive(Clone, Copy)]
pub enum Outcome<'a> {
    /// The document of a reply.
    Document(&'a Doc),
    /// The code of the service's error.
    Error(&'a Text),
}

/// Which acceptors match what a call came to, in their order.
pub fn matched(
    alloc: Global,
    plan: &WaitPlan,
    outcome: Outcome<'_>,
    status: u16,
) -> Result<List<bool>, OutOfMemory>
    ensures { IfOk result (λ matched. matched ≡ map (matches (told outcome.entry) status) plan.now.tests) }
{
    let mut matched = List::new(alloc);
    for test in plan.tests.as_slice() {
        matched.push(matches(alloc, test, outcome, status)?)?;
    }
    Ok(matched)
}

fn matches(
    alloc: Global,
    test: &Test,
    outcome: Outcome<'_>,
    status: u16,
) -> Result<bool, OutOfMemory>
    ensures { IfOk result (λ b. b ≡ matches (told outcome.entry) status test.now) }
{
    match &test.subject {
        Subject::Path(query) => value_is(alloc, query, &test.expected, outcome),
        Subject::PathAll(query) => values_are(alloc, query, &test.expected, outcome),
        Subject::PathAny(query) => some_value_is(alloc, query, &test.expected, outcome),
        Subject::Status => Ok(is_status(&test.expected, status)),
        Subject::Error => Ok(is_error(&test.expected, outcome)),
    }
}

/// The value of a query on a document; an error has none, nor has a query that faults.
fn value_of(alloc: Global, query: &Expr, outcome: Outcome<'_>) -> Result<Option<Doc>, OutOfMemory>
    ensures { IfOk result (λ value. value ≡ value_of (meaning query.now) (told outcome.entry)) }
{
    let Outcome::Document(doc) = outcome else {
        return Ok(None);
    };
    match search(alloc, query, doc) {
        Ok(value) => Ok(Some(value)),
        Err(QueryFault::OutOfMemory) => Err(OutOfMemory),
        Err(_) => Ok(None),
    }
}

fn value_is(
    alloc: Global,
    query: &Expr,
    expected: &Doc,
    outcome: Outcome<'_>,
) -> Result<bool, OutOfMemory>
    ensures { IfOk result (λ b. b ≡ passes (λ x. same x expected.now) (value_of (meaning query.now) (told outcome.entry))) }
{
    match value_of(alloc, query, outcome)? {
        Some(value) => Ok(same(&value, expected)),
        None => Ok(false),
    }
}

fn values_are(
    alloc: Global,
    query: &Expr,
    expected: &Doc,
    outcome: Outcome<'_>,
) -> Result<bool, OutOfMemory>
    ensures { IfOk result (λ b. b ≡ passes (λ x. all_equal expected.now (items_of x)) (value_of (meaning query.now) (told outcome.entry))) }
{
    match value_of(alloc, query, outcome)? {
        Some(Doc::Items(items)) => Ok(all_equal(expected, items.as_slice())),
        _ => Ok(false),
    }
}

fn some_value_is(
    alloc: Global,
    query: &Expr,
    expected: &Doc,
    outcome: Outcome<'_>,
) -> Result<bool, OutOfMemory>
    ensures { IfOk result (λ b. b ≡ passes (λ x. any_equals expected.now (items_of x)) (value_of (meaning query.now) (told outcome.entry))) }
{
    match value_of(alloc, query, outcome)? {
        Some(Doc::Items(items)) => Ok(any_equals(expected, items.as_slice())),
        _ => Ok(false),
    }
}

/// Whether there is an item, and each equals the expected document.
fn all_equal(expected: &Doc, items: &[Doc]) -> bool
    ensures { result ≡ all_equal expected.now (Some items.now) }
{
    for item in items {
        if !same(item, expected) {
            return false;
        }
    }
    !items.is_empty()
}

/// Whether an item equals the expected document.
fn any_equals(expected: &Doc, items: &[Doc]) -> bool
    ensures { result ≡ any_equals expected.now (Some items.now) }
{
    for item in items {
        if same(item, expected) {
            return true;
        }
    }
    false
}

/// Whether the expected document is the number of a status.
fn is_status(expected: &Doc, status: u16) -> bool
    ensures { result ≡ is_status status (out-Doc expected.now) }
{
    match expected {
        Doc::Number(n) => n.whole() == Some(i64::from(status)),
        _ => false,
    }
}

/// Whether the expected document is the code of the error, or says rightly whether there is one.
fn is_error(expected: &Doc, outcome: Outcome<'_>) -> bool
    ensures { result ≡ is_error (told outcome.entry) (out-Doc expected.now) }
{
    match (expected, outcome) {
        (Doc::Flag(flag), Outcome::Document(_)) => !*flag,
        (Doc::Flag(flag), Outcome::Error(_)) => *flag,
        (Doc::Str(text), Outcome::Error(code)) => *text == *code,
        _ => false,
    }
}
