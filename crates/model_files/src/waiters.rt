ghost use Rattle.std.specs.Prelude.{◌≡◌, IfSome, IsTrue};
ghost use Rattle.std.specs.Option.{option_copied};
ghost use Rattle.std.specs.Str.{chars};
ghost use Rattle.json_doc.specs.DecimalValue.{whole};
ghost use Rattle.texts.specs.Ascii.{is_ascii_text};
ghost use Rattle.texts.specs.Calls.{Answers};
ghost use Rattle.model_files.specs.Faults.{each, each_from, is_memory};
ghost use Rattle.model_files.specs.Waiters.{in_range, whole_between, number_at, state_named, state_of, matcher_named, matcher_of, needs_query, argument_of, delay_of, tries_of, acceptor_of, acceptors_of, row_of, waiters_of, IsWaiterRow, row_named};

use crate::ModelFault;
use crate::fault::inside;
use crate::names::command_name;
use crate::reading::{
    copied, items_at, maybe_text, missing, move_to, needed, object, object_at, text_at, wrong,
};
use json_doc::{Decimal, Doc, List, Pair, Pairs, Text, copy};
use std::alloc::Global;
use std::marker::Model;

/// What a waiter's acceptor says of a reply that it matches.
#[derive(Clone, Copy, Debug, PartialEq, Eq)]
pub enum State {
    Success,
    Failure,
    Retry,
}

/// What an acceptor looks at.
#[derive(Clone, Copy, Debug, PartialEq, Eq)]
pub enum Matcher {
    /// The value of a query on the reply.
    Path,
    /// All items of such a value.
    PathAll,
    /// Any item of such a value.
    PathAny,
    /// The status of the reply.
    Status,
    /// The code of an error.
    Error,
}

/// A rule of a waiter.
#[derive(Debug, Drop)]
pub struct Acceptor {
    pub state: State,
    pub matcher: Matcher,
    /// The query of a matcher of paths.
    pub argument: Option<Text>,
    pub expected: Doc,
}

/// A waiter: a row of botocore's `waiters-2.json`.
#[derive(Debug, Drop)]
pub struct WaiterRow {
    pub name: Text,
    /// The name that commands use.
    pub command: Text,
    /// The name of the operation that it calls.
    pub operation: Text,
    /// How many seconds lie between two calls.
    pub delay: u32,
    /// How many calls it makes at most.
    pub tries: u32,
    pub acceptors: List<Acceptor>,
}

/// The waiters of a service.
#[derive(Debug, Drop)]
pub struct Waiters {
    rows: List<WaiterRow>,
}

impl Model for Waiters {
    ghost use Rattle.std.specs.Prelude.{List as Seq};
    ghost use Rattle.model_files.specs.declared.waiters.WaiterRow.{WaiterRow as Row};
    ghost use Rattle.json_doc.specs.contracts.doc.Doc as doc;
    ghost use Rattle.std.specs.Coded.{codes};

    ghost Value = { Seq Row };

    ghost coded = { Prim.hlevel (codes, doc.the_row.coded) };

    ghost view = { λ waiters. waiters.rows };

    ghost use Rattle.std.specs.List.{All};
    ghost use Rattle.model_files.specs.Waiters.{IsWaiterRow};

    ghost invariant = { λ waiters. All IsWaiterRow waiters.rows };
}

impl Waiters {
    /// Reads the waiters from their document.
    #[tactic(auto, using(crate::proofs::Each::gives_inside), unfolding(crate::specs::Waiters::waiters_of))]
    pub fn read(alloc: Global, doc: &Doc) -> Result<Waiters, ModelFault>
        ensures { Answers is_memory (λ rows. rows) result (waiters_of doc.now) }
    {
        let fields = object(doc)?;
        let pairs = object_at(alloc, fields, "waiters")?;
        let rows = inside(alloc, "waiters", read_rows(alloc, pairs))?;
        Ok(Waiters { rows })
    }

    /// The first waiter with a command name.
    pub fn row(&self, command: &Text) -> Option<&WaiterRow>
        ensures first { option_copied result ≡ row_named command.now self.now }
        ensures limits { IfSome result (λ row. IsWaiterRow row.now) }
    {
        self.find(command.as_str())
    }

    fn find(&self, command: &str) -> Option<&WaiterRow>
        ensures first { option_copied result ≡ row_named (chars command.now) self.now }
        ensures limits { IfSome result (λ row. IsWaiterRow row.now) }
    {
        for row in self.rows.as_slice() {
            if row.command.is(command) {
                return Some(row);
            }
        }
        None
    }
}

fn read_rows(alloc: Global, pairs: &Pairs<Doc>) -> Result<List<WaiterRow>, ModelFault>
    ensures { Answers is_memory (λ rows. rows) result (each row_of pairs.now) }
{
    let mut rows = List::new(alloc);
    for pair in pairs.as_slice() {
        let row = inside(alloc, pair.key.as_str(), read_row(alloc, pair))?;
        rows.push(row)?;
    }
    Ok(rows)
}

#[tactic(auto, unfolding(crate::specs::Waiters::row_of))]
fn read_row(alloc: Global, pair: &Pair<Doc>) -> Result<WaiterRow, ModelFault>
    ensures { Answers is_memory (λ row. row) result (row_of pair.now) }
{
    let fields = object(&pair.value)?;
    let operation = text_at(alloc, fields, "operation")?;
    let delay = read_delay(alloc, fields)?;
    let tries = read_tries(alloc, fields)?;
    let acceptors = acceptors_at(alloc, fields)?;
    Ok(WaiterRow {
        name: pair.key.copy(alloc)?,
        command: command_name(alloc, &pair.key)?,
        operation: operation.copy(alloc)?,
        delay,
        tries,
        acceptors,
    })
}

#[tactic(auto, unfolding(crate::specs::Waiters::delay_of))]
fn read_delay(alloc: Global, fields: &Pairs<Doc>) -> Result<u32, ModelFault>
    ensures { Answers is_memory (λ delay. delay) result (delay_of fields.now) }
{
    number_at(alloc, fields, "delay", 0, 86_400)
}

#[tactic(auto, unfolding(crate::specs::Waiters::tries_of))]
fn read_tries(alloc: Global, fields: &Pairs<Doc>) -> Result<u32, ModelFault>
    ensures { Answers is_memory (λ tries. tries) result (tries_of fields.now) }
{
    number_at(alloc, fields, "maxAttempts", 1, 100_000)
}

#[tactic(auto, using(crate::proofs::Each::gives_inside), unfolding(crate::specs::Waiters::acceptors_of))]
fn acceptors_at(alloc: Global, fields: &Pairs<Doc>) -> Result<List<Acceptor>, ModelFault>
    ensures { Answers is_memory (λ acceptors. acceptors) result (acceptors_of fields.now) }
{
    let items = items_at(alloc, fields, "acceptors")?;
    inside(alloc, "acceptors", read_acceptors(alloc, items.as_slice()))
}

/// The whole number at a key, from `least` to `most`.
#[tactic(auto, unfolding(crate::specs::Waiters::number_at))]
fn number_at(
    alloc: Global,
    fields: &Pairs<Doc>,
    key: &str,
    least: u32,
    most: u32,
) -> Result<u32, ModelFault>
    requires { IsTrue (is_ascii_text key.now) }
    ensures { Answers is_memory (λ number. number) result (number_at key.now least most fields.now) }
{
    let doc = needed(alloc, fields, key)?;
    match whole_between(doc, least, most) {
        Some(number) => Ok(number),
        None => Err(wrong(alloc, key)),
    }
}

/// A whole number from `least` to `most`.
#[tactic(auto, unfolding(crate::specs::Waiters::whole_between))]
fn whole_between(doc: &Doc, least: u32, most: u32) -> Option<u32>
    ensures { result ≡ whole_between least most doc.now }
{
    match doc {
        Doc::Number(number) => whole_in(number, least, most),
        _ => None,
    }
}

/// A decimal as a whole number from `least` to `most`, where it is one.
fn whole_in(number: &Decimal, least: u32, most: u32) -> Option<u32>
    ensures { result ≡ in_range least most (whole number.now) }
{
    let whole = u32::try_from(number.whole()?).ok()?;
    if whole < least || most < whole {
        return None;
    }
    Some(whole)
}

fn read_acceptors(alloc: Global, items: &[Doc]) -> Result<List<Acceptor>, ModelFault>
    ensures { Answers is_memory (λ acceptors. acceptors) result (each_from acceptor_of 0 items.now) }
{
    let mut acceptors = List::new(alloc);
    for (at, item) in items.iter().enumerate() {
        match read_acceptor(alloc, item) {
            Ok(acceptor) => acceptors.push(acceptor)?,
            Err(fault) => return Err(move_to(alloc, at, fault)),
        }
    }
    Ok(acceptors)
}

#[tactic(auto, unfolding(crate::specs::Waiters::acceptor_of))]
fn read_acceptor(alloc: Global, doc: &Doc) -> Result<Acceptor, ModelFault>
    ensures { Answers is_memory (λ acceptor. acceptor) result (acceptor_of doc.now) }
{
    let fields = object(doc)?;
    let state = read_state(alloc, fields)?;
    let matcher = read_matcher(alloc, fields)?;
    let argument = read_argument(alloc, fields, matcher)?;
    let expected = needed(alloc, fields, "expected")?;
    Ok(Acceptor {
        state,
        matcher,
        argument: copied(alloc, argument)?,
        expected: copy(alloc, expected)?,
    })
}

#[tactic(auto, unfolding(crate::specs::Waiters::state_of))]
fn read_state(alloc: Global, fields: &Pairs<Doc>) -> Result<State, ModelFault>
    ensures { Answers is_memory (λ state. state) result (state_of fields.now) }
{
    let name = text_at(alloc, fields, "state")?;
    match state_named(name) {
        Some(state) => Ok(state),
        None => Err(wrong(alloc, "state")),
    }
}

fn state_named(name: &Text) -> Option<State>
    ensures { result ≡ state_named name.now }
{
    if name.is("success") {
        return Some(State::Success);
    }
    if name.is("failure") {
        return Some(State::Failure);
    }
    if name.is("retry") {
        return Some(State::Retry);
    }
    None
}

#[tactic(auto, unfolding(crate::specs::Waiters::matcher_of))]
fn read_matcher(alloc: Global, fields: &Pairs<Doc>) -> Result<Matcher, ModelFault>
    ensures { Answers is_memory (λ matcher. matcher) result (matcher_of fields.now) }
{
    let name = text_at(alloc, fields, "matcher")?;
    match matcher_named(name) {
        Some(matcher) => Ok(matcher),
        None => Err(wrong(alloc, "matcher")),
    }
}

fn matcher_named(name: &Text) -> Option<Matcher>
    ensures { result ≡ matcher_named name.now }
{
    if name.is("path") {
        return Some(Matcher::Path);
    }
    if name.is("pathAll") {
        return Some(Matcher::PathAll);
    }
    if name.is("pathAny") {
        return Some(Matcher::PathAny);
    }
    if name.is("status") {
        return Some(Matcher::Status);
    }
    if name.is("error") {
        return Some(Matcher::Error);
    }
    None
}

/// The query, which a matcher of paths needs.
#[tactic(auto, unfolding(crate::specs::Waiters::argument_of))]
fn read_argument(
    alloc: Global,
    fields: &Pairs<Doc>,
    matcher: Matcher,
) -> Result<Option<&Text>, ModelFault>
    ensures { Answers is_memory option_copied result (argument_of matcher fields.now) }
{
    let argument = maybe_text(alloc, fields, "argument")?;
    if argument.is_none() && needs_query(matcher) {
        return Err(missing(alloc, "argument"));
    }
    Ok(argument)
}

fn needs_query(matcher: Matcher) -> bool
    ensures { result ≡ needs_query matcher }
{
    matches!(matcher, Matcher::Path | Matcher::PathAll | Matcher::PathAny)
}
