//! The plan of a row.
ghost use Rattle.std.specs.Prelude.{◌≡◌, ◌⊎◌, map, IfOk, IfErr};
ghost use Rattle.std.specs.Option.{option_copied};
ghost use Rattle.wait_plan.specs.declared.fault.PlanFault.TheVariants as fault;
ghost use Rattle.wait_plan.specs.Inside.{is_memory};
ghost use Rattle.wait_plan.specs.Plans.{IsQueryOf, IsSubject, AreTests, IsPlanOf, IsBad, place_of};

use crate::fault::PlanFault;
use crate::plan::{Subject, Test, WaitPlan};
use jmes_syntax::{Expr, ParseFault, parse};
use json_doc::{List, OutOfMemory, Text, copy};
use model_files::{Acceptor, Matcher, State, WaiterRow};
use std::alloc::Global;

impl WaitPlan {
    /// Reads the queries of a waiter's row. `Bad` comes exactly where the argument of a matcher of paths
    /// is no expression, with the place of the first such one.
    pub fn of(alloc: Global, row: &WaiterRow) -> Result<WaitPlan, PlanFault>
        ensures plan { IfOk result (λ plan. IsPlanOf row.now plan) }
        ensures bad { IfErr result (λ f. (f ≡ fault.OutOfMemory) ⊎ IsBad row.now.acceptors f) }
    {
        let acceptors = row.acceptors.as_slice();
        Ok(WaitPlan {
            states: states_of(alloc, acceptors)?,
            tests: tests_of(alloc, acceptors)?,
            delay: row.delay,
            tries: row.tries,
        })
    }
}

fn states_of(alloc: Global, acceptors: &[Acceptor]) -> Result<List<State>, OutOfMemory>
    ensures { IfOk result (λ states. states ≡ map (λ a. a.state) acceptors.now) }
{
    let mut states = List::new(alloc);
    for acceptor in acceptors {
        states.push(acceptor.state)?;
    }
    Ok(states)
}

fn tests_of(alloc: Global, acceptors: &[Acceptor]) -> Result<List<Test>, PlanFault>
    ensures tests { IfOk result (λ tests. AreTests acceptors.now tests) }
    ensures bad { IfErr result (λ f. (f ≡ fault.OutOfMemory) ⊎ IsBad acceptors.now f) }
{
    let mut tests = List::new(alloc);
    for (at, acceptor) in acceptors.iter().enumerate() {
        match subject_of(alloc, acceptor)? {
            Some(subject) => tests.push(Test {
                subject,
                expected: copy(alloc, &acceptor.expected)?,
            })?,
            None => return Err(bad_argument(alloc, at)),
        }
    }
    Ok(tests)
}

/// What an acceptor looks at; nothing where its argument should be an expression and isn't one.
fn subject_of(alloc: Global, acceptor: &Acceptor) -> Result<Option<Subject>, OutOfMemory>
    ensures { IfOk result (λ found. IsSubject acceptor.now.matcher acceptor.now.argument found) }
{
    let argument = acceptor.argument.as_ref();
    match acceptor.matcher {
        Matcher::Path => match query_of(alloc, argument)? {
            Some(query) => Ok(Some(Subject::Path(query))),
            None => Ok(None),
        },
        Matcher::PathAll => match query_of(alloc, argument)? {
            Some(query) => Ok(Some(Subject::PathAll(query))),
            None => Ok(None),
        },
        Matcher::PathAny => match query_of(alloc, argument)? {
            Some(query) => Ok(Some(Subject::PathAny(query))),
            None => Ok(None),
        },
        Matcher::Status => Ok(Some(Subject::Status)),
        Matcher::Error => Ok(Some(Subject::Error)),
    }
}

/// The expression that an argument is, if it is one.
fn query_of(alloc: Global, argument: Option<&Text>) -> Result<Option<Expr>, OutOfMemory>
    ensures { IfOk result (λ query. IsQueryOf (option_copied argument.entry) query) }
{
    let Some(text) = argument else {
        return Ok(None);
    };
    match parse(alloc, text) {
        Ok(query) => Ok(Some(query)),
        Err(fault) => match is_memory(&fault) {
            true => Err(OutOfMemory),
            false => Ok(None),
        },
    }
}

fn is_memory(fault: &ParseFault) -> bool
    ensures { result ≡ is_memory fault.now }
{
    match fault {
        ParseFault::OutOfMemory => true,
        _ => false,
    }
}

/// The fault of the argument of the acceptor at a position.
fn bad_argument(alloc: Global, at: usize) -> PlanFault
    ensures { (result ≡ fault.OutOfMemory) ⊎ (result ≡ fault.Bad (place_of at)) }
{
    match place_of(alloc, at) {
        Ok(place) => PlanFault::Bad(place),
        Err(_) => PlanFault::OutOfMemory,
    }
}

/// The place of the argument of the acceptor at a position, from the row on.
fn place_of(alloc: Global, at: usize) -> Result<Text, OutOfMemory>
    ensures { IfOk result (λ place. place ≡ place_of at) }
{
    let position = format!(in alloc; "{at}")?;
    let mut place = Text::new(alloc);
    place.push_ascii("acceptors.")?;
    place.push_str(position.as_str())?;
    place.push_ascii(".argument")?;
    Ok(place)
}
