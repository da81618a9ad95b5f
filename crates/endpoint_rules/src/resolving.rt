//! The endpoint that a rule set gives.
ghost use Rattle.std.specs.Prelude.{◌≡◌, [], IfOk};
ghost use Rattle.std.specs.Option.{option_copied};
ghost use Rattle.endpoint_rules.specs.Free.{stops_for_memory, lacks_memory, fault_at};
ghost use Rattle.texts.specs.Calls.{Answers, Unless};
ghost use Rattle.endpoint_rules.specs.declared.fault.EndpointFault.TheVariants as endpoint_fault;
ghost use Rattle.endpoint_rules.specs.declared.stop.Stop.TheVariants as stop;
ghost use Rattle.rule_sets.specs.Rules.{seen_rules, seen_leaves, seen_leaf, path_of, conditions_at};
ghost use Rattle.endpoint_rules.specs.Scopes.{seen_scope};
ghost use Rattle.endpoint_rules.specs.Endpoints.{endpoint_for, answer_of_leaf, passed, passing_to, answered, text_for, signed, signed_by, first_sigv4, is_sigv4, first_answer};

use crate::endpoint::{Endpoint, Param};
use crate::evaluation::{expand_items, value};
use crate::fault::EndpointFault;
use crate::kinds::holds;
use crate::parameters::given;
use crate::scope::Scope;
use crate::stop::Stop;
use crate::urls::endpoint_of;
use json_doc::Doc;
use rule_sets::{Answer, Condition, Leaf, Partitions, RuleSet};
use rule_terms::{Expression, copied_text, member, text_at};
use std::alloc::Global;
use texts::{List, OutOfMemory, Pairs, Text};

/// The way to sign that counts.
const SIGV4: &str = "sigv4";

/// The answer of the first leaf, in the order of the document, all of whose conditions hold.
pub fn endpoint_for(
    alloc: Global,
    rules: &RuleSet,
    partitions: &Partitions,
    params: &[(Text, Param)],
) -> Result<Endpoint, EndpointFault>
    ensures { Answers lacks_memory (λ endpoint. endpoint) result
        (endpoint_for partitions.now params.now (seen_rules rules.now)) }
{
    let given = given(alloc, rules.parameters.as_slice(), params)?;
    first_answer(alloc, rules, partitions, &given)
}

/// The answer of the first leaf that has one.
fn first_answer(
    alloc: Global,
    rules: &RuleSet,
    partitions: &Partitions,
    given: &Pairs<Doc>,
) -> Result<Endpoint, EndpointFault>
    ensures { Answers lacks_memory (λ endpoint. endpoint) result
        (first_answer (record { partitions = partitions.now; given = given.now; assigned = [] }) (seen_leaves rules.now)) }
{
    for leaf in rules.leaves.as_slice() {
        let scope = Scope {
            partitions,
            given,
            assigned: Pairs::new(alloc),
        };
        if let Some(endpoint) = answer(alloc, scope, rules.conditions.as_slice(), leaf)? {
            return Ok(endpoint);
        }
    }
    Err(EndpointFault::NoRule)
}

/// What a leaf answers, if all of its conditions hold.
fn answer(
    alloc: Global,
    scope: Scope<'_>,
    conditions: &[List<Condition>],
    leaf: &Leaf,
) -> Result<Option<Endpoint>, EndpointFault>
    ensures { Answers lacks_memory (λ answer. answer) result
        (answer_of_leaf (seen_scope scope.entry) (seen_leaf conditions.now leaf.now)) }
{
    let mut scope = scope;
    match passes(alloc, &mut scope, conditions, leaf.path.as_slice()) {
        Ok(true) => Ok(Some(answered(alloc, &scope, leaf)?)),
        Ok(false) => Ok(None),
        Err(stop) => Err(clash_at(alloc, &leaf.place, stop)),
    }
}

/// Whether all conditions of a path hold, of which each sees what those before it assigned.
#[tactic(auto, using(crate::proofs::Passing::next_rule))]
fn passes(
    alloc: Global,
    scope: &mut Scope<'_>,
    conditions: &[List<Condition>],
    path: &[usize],
) -> Result<bool, Stop>
    ensures { Answers stops_for_memory (λ passing. passing_to passing (seen_scope scope.new)) result
        (passed (seen_scope scope.old) (path_of conditions.now path.now)) }
{
    for number in path {
        if !pass(alloc, scope, conditions_at(conditions, *number))? {
            return Ok(false);
        }
    }
    Ok(true)
}

/// The conditions of the rule with a number.
fn conditions_at(conditions: &[List<Condition>], number: usize) -> &[Condition]
    ensures { result.now ≡ conditions_at conditions.now number }
{
    match conditions.get(number) {
        Some(conditions) => conditions.as_slice(),
        None => &[],
    }
}

/// Whether all of these conditions hold.
fn pass(alloc: Global, scope: &mut Scope<'_>, conditions: &[Condition]) -> Result<bool, Stop>
    ensures { Answers stops_for_memory (λ passing. passing_to passing (seen_scope scope.new)) result
        (passed (seen_scope scope.old) conditions.now) }
{
    for condition in conditions {
        let value = value(alloc, scope, &condition.call)?;
        if !holds(&value) {
            return Ok(false);
        }
        if let Some(name) = &condition.assign {
            scope.assign(alloc, name, value)?;
        }
    }
    Ok(true)
}

/// The fault of the leaf at a place that stopped.
fn clash_at(alloc: Global, place: &Text, stop: Stop) -> EndpointFault
    ensures { Unless (lacks_memory result) (result ≡ fault_at place.now stop) }
{
    match stop {
        Stop::Clash => match place.copy(alloc) {
            Ok(place) => EndpointFault::TypeClash(place),
            Err(_) => EndpointFault::OutOfMemory,
        },
        Stop::OutOfMemory => EndpointFault::OutOfMemory,
    }
}

/// The answer of a leaf whose conditions hold.
fn answered(alloc: Global, scope: &Scope<'_>, leaf: &Leaf) -> Result<Endpoint, EndpointFault>
    ensures { Answers lacks_memory (λ endpoint. endpoint) result
        (answered (seen_scope scope.now) leaf.now.place leaf.now.answer) }
{
    match &leaf.answer {
        Answer::Endpoint(url, schemes) => {
            let url = text_for(alloc, scope, url, &leaf.place)?;
            let endpoint = endpoint_of(alloc, &url)?;
            match signed(alloc, scope, endpoint, schemes.as_slice()) {
                Ok(endpoint) => Ok(endpoint),
                Err(stop) => Err(clash_at(alloc, &leaf.place, stop)),
            }
        }
        Answer::Error(text) => Err(EndpointFault::RuleError(text_for(
            alloc,
            scope,
            text,
            &leaf.place,
        )?)),
    }
}

/// The text that an expression of the leaf at a place has.
fn text_for(
    alloc: Global,
    scope: &Scope<'_>,
    expression: &Expression,
    place: &Text,
) -> Result<Text, EndpointFault>
    ensures { Answers lacks_memory (λ text. text) result
        (text_for (seen_scope scope.now) place.now expression.now) }
{
    match value(alloc, scope, expression) {
        Ok(Doc::Str(text)) => Ok(text),
        Ok(_) => Err(clash_at(alloc, place, Stop::Clash)),
        Err(stop) => Err(clash_at(alloc, place, stop)),
    }
}

/// The endpoint with the names of the first way to sign that counts. Each text of all of them is
/// expanded.
fn signed(
    alloc: Global,
    scope: &Scope<'_>,
    endpoint: Endpoint,
    schemes: &[Doc],
) -> Result<Endpoint, Stop>
    ensures { Answers stops_for_memory (λ endpoint. endpoint) result
        (signed (seen_scope scope.now) schemes.now endpoint) }
{
    let schemes = expand_items(alloc, scope, schemes)?;
    match first_sigv4(schemes.as_slice()) {
        Some(scheme) => Ok(signed_by(alloc, scheme, endpoint)?),
        None => Ok(endpoint),
    }
}

/// The endpoint with the names of a way to sign.
fn signed_by(alloc: Global, scheme: &Doc, endpoint: Endpoint) -> Result<Endpoint, OutOfMemory>
    ensures { IfOk result (λ signed. signed ≡ signed_by scheme.now endpoint) }
{
    let signing_name = copied_text(alloc, member(scheme, "signingName"))?;
    let signing_region = copied_text(alloc, member(scheme, "signingRegion"))?;
    Ok(Endpoint {
        signing_name,
        signing_region,
        ..endpoint
    })
}

fn first_sigv4(schemes: &[Doc]) -> Option<&Doc>
    ensures { option_copied result ≡ first_sigv4 schemes.now }
{
    for scheme in schemes {
        if is_sigv4(scheme) {
            return Some(scheme);
        }
    }
    None
}

fn is_sigv4(scheme: &Doc) -> bool
    ensures { result ≡ is_sigv4 scheme.now }
{
    text_at(scheme, "name") == SIGV4
}
