//! The values of a function's arguments.
ghost use Rattle.std.specs.Prelude.{◌≡◌, ◌≢◌, is_some};
ghost use Rattle.texts.specs.Calls.{Answers};
ghost use Rattle.jmes_eval.specs.Answers.{is_memory, all_of};
ghost use Rattle.jmes_syntax.specs.declared.function.Function.TheVariants.{ToArray};
ghost use Rattle.jmes_eval.specs.Many.{first_value};
ghost use Rattle.jmes_eval.specs.Meaning.{many_of, of_one, of_two, value_in};
ghost use Rattle.jmes_eval.specs.Inside.{seen_doc, seen_values};

use crate::kinds::{is_null, type_name};
use crate::seen::{Seen, made};
use crate::{QueryFault, lists, merging, numbers, sorting, text_functions, tight};
use jmes_syntax::Function;
use json_doc::{Doc, Text};
use std::alloc::Global;

/// The value at a place among the arguments.
pub(crate) fn value<'a, 'b>(
    values: &'b [Option<Seen<'a>>],
    at: usize,
) -> Result<&'b Doc, QueryFault>
    ensures { Answers is_memory (λ doc. doc.now) result (value_in at (seen_values values.now)) }
{
    match values.get(at) {
        Some(Some(seen)) => Ok(seen.doc()),
        Some(None) => Err(QueryFault::TypeFault),
        None => Err(QueryFault::TypeFault),
    }
}

/// The first value, given out.
pub(crate) fn first<'a>(values: Vec<Option<Seen<'a>>>) -> Result<Seen<'a>, QueryFault>
    ensures { Answers is_memory seen_doc result (value_in 0 (seen_values values.entry.items)) }
{
    for value in values {
        return match value {
            Some(seen) => Ok(seen),
            None => Err(QueryFault::TypeFault),
        };
    }
    Err(QueryFault::TypeFault)
}

/// A function of one value.
pub(crate) fn of_one<'a>(
    alloc: Global,
    function: Function,
    seen: Seen<'a>,
) -> Result<Seen<'a>, QueryFault>
    ensures { Answers is_memory seen_doc result (of_one function (seen_doc seen.entry)) }
{
    if let Function::ToArray = function {
        return Ok(lists::to_array(alloc, seen)?);
    }
    match of_doc(alloc, function, seen.doc()) {
        Ok(made) => Ok(Seen::Made(made)),
        Err(fault) => Err(fault),
    }
}

/// A function of one value that makes its result.
fn of_doc(alloc: Global, function: Function, doc: &Doc) -> Result<Doc, QueryFault>
    ensures { function ≢ ToArray → Answers is_memory (λ x. x) result (of_one function doc.now) }
{
    match function {
        Function::Abs => numbers::abs(doc),
        Function::Ceil => numbers::ceil(doc),
        Function::Floor => numbers::floor(doc),
        Function::Keys => lists::keys(alloc, doc),
        Function::Length => lists::length(doc),
        Function::Max => sorting::max(alloc, doc),
        Function::Min => sorting::min(alloc, doc),
        Function::Reverse => lists::reverse(alloc, doc),
        Function::Sort => sorting::sort(alloc, doc),
        Function::Sum => numbers::sum(alloc, doc),
        Function::ToNumber => Ok(numbers::to_number(alloc, doc)?),
        Function::ToString => Ok(tight::to_string(alloc, doc)?),
        Function::Type => Ok(Doc::Str(Text::from_str(alloc, type_name(doc))?)),
        Function::Values => lists::values(alloc, doc),
        _ => Err(QueryFault::TypeFault),
    }
}

/// A function of two values.
pub(crate) fn of_two<'a>(
    alloc: Global,
    function: Function,
    left: &Doc,
    right: &Doc,
) -> Result<Seen<'a>, QueryFault>
    ensures { Answers is_memory seen_doc result (of_two function left.now right.now) }
{
    match of_docs(alloc, function, left, right) {
        Ok(doc) => Ok(Seen::Made(doc)),
        Err(fault) => Err(fault),
    }
}

fn of_docs(alloc: Global, function: Function, left: &Doc, right: &Doc) -> Result<Doc, QueryFault>
    ensures { Answers is_memory (λ x. x) result (of_two function left.now right.now) }
{
    match function {
        Function::Contains => text_functions::contains(left, right),
        Function::EndsWith => text_functions::ends_with(left, right),
        Function::Join => text_functions::join(alloc, left, right),
        Function::StartsWith => text_functions::starts_with(left, right),
        _ => Err(QueryFault::TypeFault),
    }
}

/// A function of one value or more.
pub(crate) fn of_many<'a>(
    alloc: Global,
    function: Function,
    values: Vec<Option<Seen<'a>>>,
) -> Result<Seen<'a>, QueryFault>
    ensures { Answers is_memory seen_doc result (many_of function (seen_values values.entry.items)) }
{
    if !are_values(values.as_slice()) {
        return Err(QueryFault::TypeFault);
    }
    match function {
        Function::Merge => made(merging::merge(alloc, values.as_slice())),
        Function::NotNull => Ok(not_null(values)),
        _ => Err(QueryFault::TypeFault),
    }
}

/// Whether no argument is an expref.
fn are_values(values: &[Option<Seen<'_>>]) -> bool
    ensures { result ≡ is_some (all_of (λ x. x) (seen_values values.now)) }
{
    for value in values {
        if value.is_none() {
            return false;
        }
    }
    true
}

/// The first value that isn't null.
fn not_null<'a>(values: Vec<Option<Seen<'a>>>) -> Seen<'a>
    ensures { seen_doc result ≡ first_value (seen_values values.entry.items) }
{
    for value in values {
        if let Some(seen) = value {
            if !is_null(seen.doc()) {
                return seen;
            }
        }
    }
    Seen::Made(Doc::Null)
}
