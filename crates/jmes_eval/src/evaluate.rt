//! The value of an expression for a document.
#![tactic(auto, using(crate::proofs::Meanings::by_cases))]

ghost use Rattle.std.specs.Prelude.{◌≡◌, ◌<◌, true, map, option_map, IsTrue, IfOk, Some};
ghost use Rattle.json_doc.specs.declared.doc.Doc.TheVariants.{Null, Flag};
ghost use Rattle.texts.specs.Calls.{Answers};
ghost use Rattle.jmes_eval.specs.Answers.{is_memory};
ghost use Rattle.jmes_eval.specs.Inside.{entries_of, seen_all, seen_doc, seen_values};
ghost use Rattle.jmes_eval.specs.Kinds.{items_of};
ghost use Rattle.jmes_eval.specs.Meaning.{arguments_at, both, call_of, chain_of, compare_of, either, hash_of, is_projection, joined_lists, keyed, list_of, map_of, max_by_of, meaning, min_by_of, of_elements, operand_of, part_of, passes_of, piped, project, expref_in, run, sieved, sort_by_of, step_of};
ghost use Rattle.jmes_eval.specs.Parts.{argument_with, chain_with, compared_with, operand_with, pair_with, step_with, steps_with};
ghost use Rattle.jmes_eval.specs.Weights.{arguments_weight, weight};

use crate::QueryFault;
use crate::arguments::{first, of_many, of_one, of_two, value};
use crate::keys::{element_or_null, fits, in_order};
use crate::kinds::{is_null, is_true, items};
use crate::operators::{compared, negated};
use crate::places::{field_at, field_of, index_at, index_of};
use crate::projected::{elements, joined_lists, slice_of, values};
use crate::seen::Seen;
use crate::signature::{Form, form_of};
use crate::sorting::{Entry, ascend, greatest_entry, least_entry};
use jmes_syntax::{Argument, Chain, Compared, Expr, Function, Operand, Step};
use json_doc::{Doc, List, Pair, Pairs};
use std::alloc::Global;

/// The value that an expression has for a document, as a document of its own (JMESPath specification).
/// `TypeFault` comes exactly where a function is called with a value of another kind than it takes, and
/// `NumberTooWide` where the value of one is no `Decimal`; of several faults the first that is met.
pub fn search(alloc: Global, expr: &Expr, doc: &Doc) -> Result<Doc, QueryFault>
    ensures { Answers is_memory (λ x. x) result (meaning expr.now doc.now) }
{
    let seen = look(alloc, expr, Seen::At(doc))?;
    Ok(seen.into_doc(alloc)?)
}

/// The value of an expression for what another one gave, of which it takes what it needs. It may be a
/// place in the document or in the expression.
#[cycle(query)]
fn look<'a>(alloc: Global, expr: &'a Expr, at: Seen<'a>) -> Result<Seen<'a>, QueryFault>
    ensures { Answers is_memory seen_doc result (meaning expr.now (seen_doc at.entry)) }
{
    match expr {
        Expr::Pipe(parts) => look_through(alloc, parts.as_slice(), at),
        Expr::Operand(operand) => look_at_operand(alloc, operand, at),
        _ => look_again(alloc, expr, at),
    }
}

/// The same for an expression that asks its document more than once.
#[cycle(query)]
fn look_again<'a>(alloc: Global, expr: &'a Expr, at: Seen<'a>) -> Result<Seen<'a>, QueryFault>
    ensures { Answers is_memory seen_doc result (meaning expr.now (seen_doc at.entry)) }
{
    match at {
        Seen::At(place) => look_at(alloc, expr, place),
        Seen::Made(doc) => match look_at(alloc, expr, &doc) {
            Ok(seen) => Ok(Seen::Made(seen.into_doc(alloc)?)),
            Err(fault) => Err(fault),
        },
    }
}

#[cycle(query)]
fn look_at<'a>(alloc: Global, expr: &'a Expr, doc: &'a Doc) -> Result<Seen<'a>, QueryFault>
    ensures { Answers is_memory seen_doc result (meaning expr.now doc.now) }
{
    match expr {
        Expr::Pipe(parts) => look_through(alloc, parts.as_slice(), Seen::At(doc)),
        Expr::Or(sides) => either(alloc, sides.as_slice(), doc),
        Expr::And(sides) => both(alloc, sides.as_slice(), doc),
        Expr::Compare(operand, others) => comparisons(alloc, operand, others.as_slice(), doc),
        Expr::Operand(operand) => look_at_operand(alloc, operand, Seen::At(doc)),
    }
}

#[cycle(query)]
fn look_through<'a>(alloc: Global, parts: &'a [Expr], at: Seen<'a>) -> Result<Seen<'a>, QueryFault>
    ensures { Answers is_memory seen_doc result (piped (map meaning parts.now) (seen_doc at.entry)) }
{
    let mut at = at;
    for part in parts {
        at = look(alloc, part, at)?;
    }
    Ok(at)
}

#[cycle(query)]
fn either<'a>(alloc: Global, sides: &'a [Expr], doc: &'a Doc) -> Result<Seen<'a>, QueryFault>
    ensures { Answers is_memory seen_doc result (either (map meaning sides.now) Null doc.now) }
{
    let mut at = Seen::Made(Doc::Null);
    for side in sides {
        if is_true(at.doc()) {
            return Ok(at);
        }
        at = look_at(alloc, side, doc)?;
    }
    Ok(at)
}

#[cycle(query)]
fn both<'a>(alloc: Global, sides: &'a [Expr], doc: &'a Doc) -> Result<Seen<'a>, QueryFault>
    ensures { Answers is_memory seen_doc result (both (map meaning sides.now) (Flag true) doc.now) }
{
    let mut at = Seen::Made(Doc::Flag(true));
    for side in sides {
        if !is_true(at.doc()) {
            return Ok(at);
        }
        at = look_at(alloc, side, doc)?;
    }
    Ok(at)
}

/// An operand and the comparisons behind it, from the left.
#[cycle(query)]
fn comparisons<'a>(
    alloc: Global,
    operand: &'a Operand<Expr>,
    others: &'a [Compared<Expr>],
    doc: &'a Doc,
) -> Result<Seen<'a>, QueryFault>
    ensures { Answers is_memory seen_doc result (compare_of (operand_with meaning operand.now) (map (compared_with meaning) others.now) doc.now) }
{
    let mut at = look_at_operand(alloc, operand, Seen::At(doc))?;
    for other in others {
        let right = look_at_operand(alloc, &other.right, Seen::At(doc))?;
        at = Seen::Made(compared(other.comparator, at.doc(), right.doc()));
    }
    Ok(at)
}

#[cycle(query)]
fn look_at_operand<'a>(
    alloc: Global,
    operand: &'a Operand<Expr>,
    at: Seen<'a>,
) -> Result<Seen<'a>, QueryFault>
    ensures { Answers is_memory seen_doc result (operand_of (operand_with meaning operand.now) (seen_doc at.entry)) }
{
    match look_along(alloc, &operand.chain, at) {
        Ok(seen) => Ok(negated(operand.negations, seen)),
        Err(fault) => Err(fault),
    }
}

/// The value at the end of a chain.
#[cycle(query)]
fn look_along<'a>(
    alloc: Global,
    chain: &'a Chain<Expr>,
    at: Seen<'a>,
) -> Result<Seen<'a>, QueryFault>
    ensures { Answers is_memory seen_doc result (chain_of (chain_with meaning chain.now) (seen_doc at.entry)) }
{
    let mut at = walk(alloc, chain.first.as_slice(), at)?;
    for steps in chain.flattened.as_slice() {
        at = flatten(alloc, steps, at)?;
    }
    Ok(at)
}

/// A `[]` and the steps behind it, for what the steps before it gave.
#[cycle(query)]
fn flatten<'a>(
    alloc: Global,
    steps: &'a List<Step<Expr>>,
    at: Seen<'a>,
) -> Result<Seen<'a>, QueryFault>
    ensures { Answers is_memory seen_doc result (project (run (steps_with meaning steps.now)) (option_map joined_lists (items_of (seen_doc at.entry)))) }
{
    let places = joined_lists(alloc, at)?;
    match each_or_null(alloc, steps.as_slice(), places) {
        Ok(doc) => Ok(Seen::Made(doc)),
        Err(fault) => Err(fault),
    }
}

/// The value behind steps of which a projection ends them: it applies those behind it to each element.
#[cycle(query)]
fn walk<'a>(alloc: Global, steps: &'a [Step<Expr>], at: Seen<'a>) -> Result<Seen<'a>, QueryFault>
    ensures { Answers is_memory seen_doc result (run (steps_with meaning steps.now) (seen_doc at.entry)) }
{
    let mut at = at;
    for (i, step) in steps.iter().enumerate() {
        if is_projection(step) {
            let (_, rest) = steps.split_at(i + 1);
            return match project(alloc, step, rest, at) {
                Ok(doc) => Ok(Seen::Made(doc)),
                Err(fault) => Err(fault),
            };
        }
        at = go_a_step(alloc, step, at)?;
    }
    Ok(at)
}

fn is_projection(step: &Step<Expr>) -> bool
    ensures { result ≡ is_projection step.now }
{
    match step {
        Step::Values => true,
        Step::Elements => true,
        Step::Slice(_) => true,
        Step::FilterProjection(_) => true,
        _ => false,
    }
}

/// A projection with the steps behind it.
#[cycle(query)]
fn project<'a>(
    alloc: Global,
    step: &'a Step<Expr>,
    rest: &'a [Step<Expr>],
    at: Seen<'a>,
) -> Result<Doc, QueryFault>
    ensures { IsTrue (is_projection step.now) → Answers is_memory (λ x. x) result (step_of (step_with meaning step.now) (run (steps_with meaning rest.now)) (seen_doc at.entry)) }
{
    match step {
        Step::Values => each_or_null(alloc, rest, values(alloc, at)?),
        Step::Elements => each_or_null(alloc, rest, elements(alloc, at)?),
        Step::Slice(slice) => each_or_null(alloc, rest, slice_of(alloc, *slice, at.doc())?),
        Step::FilterProjection(test) => filter(alloc, test, rest, elements(alloc, at)?),
        _ => Ok(Doc::Null),
    }
}

/// The list of the values of steps for each element, without nulls; null where there is no list.
#[cycle(query)]
fn each_or_null<'a>(
    alloc: Global,
    steps: &'a [Step<Expr>],
    places: Option<Vec<Seen<'a>>>,
) -> Result<Doc, QueryFault>
    ensures { Answers is_memory (λ x. x) result (project (run (steps_with meaning steps.now)) (option_map (λ all. seen_all all.items) places.entry)) }
{
    match places {
        Some(places) => each(alloc, steps, places),
        None => Ok(Doc::Null),
    }
}

#[cycle(query)]
fn each<'a>(
    alloc: Global,
    steps: &'a [Step<Expr>],
    places: Vec<Seen<'a>>,
) -> Result<Doc, QueryFault>
    ensures { Answers is_memory (λ x. x) result (project (run (steps_with meaning steps.now)) (Some (seen_all places.entry.items))) }
{
    let mut made = List::new(alloc);
    for place in places {
        let seen = walk(alloc, steps, place)?;
        if !is_null(seen.doc()) {
            made.push(seen.into_doc(alloc)?)?;
        }
    }
    Ok(Doc::Items(made))
}

/// The same for the elements that pass a test.
#[cycle(query)]
fn filter<'a>(
    alloc: Global,
    test: &'a Expr,
    steps: &'a [Step<Expr>],
    places: Option<Vec<Seen<'a>>>,
) -> Result<Doc, QueryFault>
    ensures { Answers is_memory (λ x. x) result (project (sieved (meaning test.now) (run (steps_with meaning steps.now))) (option_map (λ all. seen_all all.items) places.entry)) }
{
    match places {
        Some(places) => each_passing(alloc, test, steps, places),
        None => Ok(Doc::Null),
    }
}

#[cycle(query)]
fn each_passing<'a>(
    alloc: Global,
    test: &'a Expr,
    steps: &'a [Step<Expr>],
    places: Vec<Seen<'a>>,
) -> Result<Doc, QueryFault>
    ensures { Answers is_memory (λ x. x) result (project (sieved (meaning test.now) (run (steps_with meaning steps.now))) (Some (seen_all places.entry.items))) }
{
    let mut made = List::new(alloc);
    for place in places {
        if passes(alloc, test, place.doc())? {
            let found = walk(alloc, steps, place)?;
            if !is_null(found.doc()) {
                made.push(found.into_doc(alloc)?)?;
            }
        }
    }
    Ok(Doc::Items(made))
}

/// Whether a value passes a test.
#[cycle(query)]
fn passes(alloc: Global, test: &Expr, doc: &Doc) -> Result<bool, QueryFault>
    ensures { Answers is_memory (λ x. x) result (passes_of (meaning test.now) doc.now) }
{
    let found = look_at(alloc, test, doc)?;
    Ok(is_true(found.doc()))
}

/// A step that is no projection, for what the steps before it gave.
#[cycle(query)]
fn go_a_step<'a>(alloc: Global, step: &'a Step<Expr>, at: Seen<'a>) -> Result<Seen<'a>, QueryFault>
    ensures { Answers is_memory seen_doc result (part_of (step_with meaning step.now) (seen_doc at.entry)) }
{
    match at {
        Seen::At(place) => part(alloc, step, place),
        Seen::Made(doc) => part_of(alloc, step, doc),
    }
}

/// A step that takes what it needs of a document that was made.
#[cycle(query)]
fn part_of<'a>(alloc: Global, step: &'a Step<Expr>, doc: Doc) -> Result<Seen<'a>, QueryFault>
    ensures { Answers is_memory seen_doc result (part_of (step_with meaning step.now) doc) }
{
    match step {
        Step::Current => Ok(Seen::Made(doc)),
        Step::Field(name) => Ok(Seen::Made(field_of(name, doc))),
        Step::Index(n) => Ok(Seen::Made(index_of(*n, doc))),
        Step::Group(expr) => look(alloc, expr, Seen::Made(doc)),
        _ => match part(alloc, step, &doc) {
            Ok(seen) => Ok(Seen::Made(seen.into_doc(alloc)?)),
            Err(fault) => Err(fault),
        },
    }
}

#[cycle(query)]
fn part<'a>(alloc: Global, step: &'a Step<Expr>, doc: &'a Doc) -> Result<Seen<'a>, QueryFault>
    ensures { Answers is_memory seen_doc result (part_of (step_with meaning step.now) doc.now) }
{
    match step {
        Step::Current => Ok(Seen::At(doc)),
        Step::Literal(value) => Ok(Seen::At(value)),
        Step::Field(name) => Ok(field_at(name, doc)),
        Step::Group(expr) => look_at(alloc, expr, doc),
        Step::List(exprs) => list(alloc, exprs.as_slice(), doc),
        Step::Hash(fields) => hash(alloc, fields.as_slice(), doc),
        Step::Call(function, arguments) => call(alloc, *function, arguments.as_slice(), doc),
        Step::Index(n) => Ok(index_at(*n, doc)),
        Step::Values => Ok(Seen::Made(Doc::Null)),
        Step::Elements => Ok(Seen::Made(Doc::Null)),
        Step::Slice(_) => Ok(Seen::Made(Doc::Null)),
        Step::FilterProjection(_) => Ok(Seen::Made(Doc::Null)),
    }
}

/// A multi-select list.
#[cycle(query)]
fn list<'a>(alloc: Global, exprs: &'a [Expr], doc: &'a Doc) -> Result<Seen<'a>, QueryFault>
    ensures { Answers is_memory seen_doc result (list_of (map meaning exprs.now) doc.now) }
{
    if is_null(doc) {
        return Ok(Seen::Made(Doc::Null));
    }
    let mut made = List::new(alloc);
    for expr in exprs {
        made.push(look_at(alloc, expr, doc)?.into_doc(alloc)?)?;
    }
    Ok(Seen::Made(Doc::Items(made)))
}

/// A multi-select hash.
#[cycle(query)]
fn hash<'a>(alloc: Global, fields: &'a [Pair<Expr>], doc: &'a Doc) -> Result<Seen<'a>, QueryFault>
    ensures { Answers is_memory seen_doc result (hash_of (map (pair_with meaning) fields.now) doc.now) }
{
    if is_null(doc) {
        return Ok(Seen::Made(Doc::Null));
    }
    let mut made = Pairs::new(alloc);
    for field in fields {
        let value = look_at(alloc, &field.value, doc)?.into_doc(alloc)?;
        made.put(field.key.copy(alloc)?, value)?;
    }
    Ok(Seen::Made(Doc::Fields(made)))
}

/// A function's value for its arguments, which have their values first.
#[cycle(query)]
fn call<'a>(
    alloc: Global,
    function: Function,
    arguments: &'a [Argument<Expr>],
    doc: &'a Doc,
) -> Result<Seen<'a>, QueryFault>
    ensures { Answers is_memory seen_doc result (call_of function (map (argument_with meaning) arguments.now) doc.now) }
{
    let values = arguments_at(alloc, arguments, doc)?;
    match form_of(function) {
        Form::One => of_one(alloc, function, first(values)?),
        Form::Two => {
            let left = value(values.as_slice(), 0)?;
            let right = value(values.as_slice(), 1)?;
            of_two(alloc, function, left, right)
        }
        Form::Many => of_many(alloc, function, values),
        Form::ExprefFirst => {
            let expr = expref(arguments, 0)?;
            mapped(alloc, expr, value(values.as_slice(), 1)?)
        }
        Form::ExprefLast => {
            let elements = value(values.as_slice(), 0)?;
            by_keys(alloc, function, elements, expref(arguments, 1)?)
        }
    }
}

/// The values of arguments; an expref has none.
#[cycle(query)]
fn arguments_at<'a>(
    alloc: Global,
    arguments: &'a [Argument<Expr>],
    doc: &'a Doc,
) -> Result<Vec<Option<Seen<'a>>>, QueryFault>
    ensures { Answers is_memory (λ values. seen_values values.items) result (arguments_at (map (argument_with meaning) arguments.now) doc.now) }
{
    let mut values = Vec::new(alloc);
    for argument in arguments {
        match argument {
            Argument::Value(expr) => values.push(Some(look_at(alloc, expr, doc)?))?,
            Argument::Expref(_) => values.push(None)?,
        }
    }
    Ok(values)
}

/// The expref at a place among the arguments.
fn expref(arguments: &[Argument<Expr>], at: usize) -> Result<&Expr, QueryFault>
    ensures value { Answers is_memory (λ expr. meaning expr.now) result (expref_in at (map (argument_with meaning) arguments.now)) }
    ensures within { IfOk result (λ expr. weight expr.now < arguments_weight (map (argument_with weight) arguments.now)) }
{
    match arguments.get(at) {
        Some(Argument::Expref(expr)) => Ok(expr),
        Some(Argument::Value(_)) => Err(QueryFault::TypeFault),
        None => Err(QueryFault::TypeFault),
    }
}

/// The values of an expression for the elements of a list, nulls too.
#[cycle(query)]
fn mapped<'a>(alloc: Global, expr: &Expr, doc: &Doc) -> Result<Seen<'a>, QueryFault>
    ensures { Answers is_memory seen_doc result (map_of (meaning expr.now) doc.now) }
{
    let items = items(doc)?;
    let mut made = List::new(alloc);
    for item in items {
        made.push(look_at(alloc, expr, item)?.into_doc(alloc)?)?;
    }
    Ok(Seen::Made(Doc::Items(made)))
}

/// A function that goes by the keys of elements.
#[cycle(query)]
fn by_keys<'a>(
    alloc: Global,
    function: Function,
    doc: &Doc,
    expr: &Expr,
) -> Result<Seen<'a>, QueryFault>
    ensures { Answers is_memory seen_doc result (of_elements function doc.now (meaning expr.now)) }
{
    match function {
        Function::SortBy => sort_by(alloc, doc, expr),
        Function::MinBy => min_by(alloc, doc, expr),
        Function::MaxBy => max_by(alloc, doc, expr),
        _ => Err(QueryFault::TypeFault),
    }
}

#[cycle(query)]
fn sort_by<'a>(alloc: Global, doc: &Doc, expr: &Expr) -> Result<Seen<'a>, QueryFault>
    ensures { Answers is_memory seen_doc result (sort_by_of doc.now (meaning expr.now)) }
{
    let mut entries = keyed(alloc, expr, items(doc)?)?;
    ascend(&mut entries)?;
    Ok(Seen::Made(in_order(alloc, entries.as_slice())?))
}

#[cycle(query)]
fn min_by<'a>(alloc: Global, doc: &Doc, expr: &Expr) -> Result<Seen<'a>, QueryFault>
    ensures { Answers is_memory seen_doc result (min_by_of doc.now (meaning expr.now)) }
{
    let entries = keyed(alloc, expr, items(doc)?)?;
    let least = least_entry(entries.as_slice());
    Ok(Seen::Made(element_or_null(alloc, least)?))
}

#[cycle(query)]
fn max_by<'a>(alloc: Global, doc: &Doc, expr: &Expr) -> Result<Seen<'a>, QueryFault>
    ensures { Answers is_memory seen_doc result (max_by_of doc.now (meaning expr.now)) }
{
    let entries = keyed(alloc, expr, items(doc)?)?;
    let greatest = greatest_entry(entries.as_slice());
    Ok(Seen::Made(element_or_null(alloc, greatest)?))
}

/// The elements with their keys, each of which is of the kind of the first.
#[cycle(query)]
fn keyed<'a>(alloc: Global, expr: &'a Expr, items: &'a [Doc]) -> Result<Vec<Entry<'a>>, QueryFault>
    ensures { Answers is_memory (λ entries. entries_of entries.items) result (keyed (meaning expr.now) items.now) }
{
    let mut entries = Vec::new(alloc);
    for item in items {
        let key = look_at(alloc, expr, item)?;
        if !fits(entries.as_slice(), &key) {
            return Err(QueryFault::TypeFault);
        }
        entries.push(Entry { key, element: item })?;
    }
    Ok(entries)
}
