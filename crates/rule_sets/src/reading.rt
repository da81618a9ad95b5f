//! A rule set cut into its leaves. Judging has let the document pass, so that what stands nowhere in a
//! good one may be read as anything.
ghost use Rattle.std.specs.Prelude.{◌≡◌, ◌++◌, ◌∷◌, [], bytes_eq, codes, length, map, IfOk, OnOk, IsTrue};
ghost use Rattle.std.specs.Fmt.{decimal};
ghost use Rattle.std.specs.Option.{option_copied};
ghost use Rattle.std.specs.Str.{chars};
ghost use Rattle.texts.specs.Ascii.{is_ascii_text};
ghost use Rattle.texts.specs.Calls.{Answers};
ghost use Rattle.rule_sets.specs.Cuts.{IsCut, HasPaths, AreBelow};
ghost use Rattle.rule_sets.specs.Faults.{is_memory};
ghost use Rattle.rule_sets.specs.Rules.{expression_of, expression_or_null, call_of, conditions_of, parameters_of, parameter_of, is_true_in, answer_of, endpoint_answer, schemes_in, leaves_below, leaves_of, rules_of, seen_rules, path_of};
ghost use Rattle.rule_terms.specs.Seen.{fields_at, items_at, text_at, text_or_empty};

use crate::fault::{RuleFault, bad_at};
use crate::judging::{function_in, is_list_type, judge_rules};
use crate::rule_set::{Answer, Condition, Leaf, Parameter, RuleSet};
use json_doc::{Doc, copy};
use rule_terms::{Expression, copied_text, items_at, member, text_at, text_or_empty};
use std::alloc::Global;
use texts::{List, OutOfMemory, Pair, Pairs, Text};

impl RuleSet {
    /// Reads a rule set from its document.
    pub fn read(alloc: Global, doc: &Doc) -> Result<RuleSet, RuleFault>
        ensures { Answers is_memory seen_rules result (rules_of doc.now) }
    {
        if let Err(fault) = judge_rules(alloc, doc) {
            return Err(bad_at(alloc, fault));
        }
        let mut rules = RuleSet {
            parameters: read_parameters(alloc, doc)?,
            conditions: List::new(alloc),
            leaves: List::new(alloc),
        };
        let path = List::new(alloc);
        let place = Text::from_str(alloc, "rules")?;
        cut_rules(alloc, &mut rules, &path, &place, items_at(doc, "rules"))?;
        Ok(rules)
    }
}

/// The parameters in their order.
fn read_parameters(alloc: Global, doc: &Doc) -> Result<List<Parameter>, OutOfMemory>
    ensures { IfOk result (λ parameters. parameters ≡ parameters_of doc.now) }
{
    let mut parameters = List::new(alloc);
    for field in fields_at(doc, "parameters") {
        parameters.push(read_parameter(alloc, &field.key, &field.value)?)?;
    }
    Ok(parameters)
}

/// The pairs of the object at a key: none where there is no object.
#[tactic(auto, using(texts::proofs::Texts::chars_ascii))]
pub fn fields_at<'a>(doc: &'a Doc, key: &str) -> &'a [Pair<Doc>]
    requires { IsTrue (is_ascii_text key.now) }
    ensures { result.now ≡ fields_at key.now doc.now }
{
    match member(doc, key) {
        Some(Doc::Fields(fields)) => fields.as_slice(),
        _ => &[],
    }
}

#[tactic(auto, using(texts::proofs::Texts::chars_ascii))]
fn read_parameter(alloc: Global, name: &Text, doc: &Doc) -> Result<Parameter, OutOfMemory>
    ensures { IfOk result (λ parameter. parameter ≡ parameter_of name.now doc.now) }
{
    Ok(Parameter {
        name: name.copy(alloc)?,
        built_in: copied_text(alloc, member(doc, "builtIn"))?,
        required: is_true(member(doc, "required")),
        is_list: is_list_type(member(doc, "type")),
        default: copied(alloc, member(doc, "default"))?,
    })
}

fn is_true(doc: Option<&Doc>) -> bool
    ensures { result ≡ is_true_in (option_copied doc.entry) }
{
    match doc {
        Some(Doc::Flag(flag)) => *flag,
        _ => false,
    }
}

/// Puts the leaves of a list of rules behind the others, with the numbers of the rules around them.
#[cycle(cutting)]
fn cut_rules(
    alloc: Global,
    rules: &mut RuleSet,
    path: &List<usize>,
    place: &Text,
    docs: &[Doc],
) -> Result<(), OutOfMemory>
    requires paths { HasPaths rules.old }
    requires within { AreBelow (length rules.old.conditions) path.now }
    ensures { OnOk result (IsCut rules.old rules.new
        (leaves_below (path_of rules.old.conditions path.now) place.now 0 docs.now)) }
{
    for (at, doc) in docs.iter().enumerate() {
        let place = place_at(alloc, place, at)?;
        cut_rule(alloc, rules, path, place, doc)?;
    }
    Ok(())
}

/// Puts the leaves of a rule behind the others: a rule that isn't a tree is one.
#[cycle(cutting)]
fn cut_rule(
    alloc: Global,
    rules: &mut RuleSet,
    path: &List<usize>,
    place: Text,
    doc: &Doc,
) -> Result<(), OutOfMemory>
    requires paths { HasPaths rules.old }
    requires within { AreBelow (length rules.old.conditions) path.now }
    ensures { OnOk result (IsCut rules.old rules.new
        (leaves_of (path_of rules.old.conditions path.now) place doc.now)) }
{
    let path = longer(alloc, path, rules.conditions.len())?;
    rules.conditions.push(read_conditions(alloc, doc)?)?;
    if has_type(doc, "tree") {
        let place = below(alloc, &place, "rules")?;
        return cut_rules(alloc, rules, &path, &place, items_at(doc, "rules"));
    }
    let answer = read_answer(alloc, doc)?;
    rules.leaves.push(Leaf {
        place,
        path,
        answer,
    })
}

/// A path and one more number.
fn longer(alloc: Global, path: &List<usize>, last: usize) -> Result<List<usize>, OutOfMemory>
    ensures { IfOk result (λ made. made ≡ path.now ++ last ∷ []) }
{
    let mut made = List::new(alloc);
    for number in path.as_slice() {
        made.push(*number)?;
    }
    made.push(last)?;
    Ok(made)
}

/// What a leaf answers.
#[tactic(auto, using(texts::proofs::Texts::chars_ascii))]
fn read_answer(alloc: Global, doc: &Doc) -> Result<Answer, OutOfMemory>
    ensures { IfOk result (λ answer. answer ≡ answer_of doc.now) }
{
    if has_type(doc, "error") {
        return Ok(Answer::Error(read_maybe(alloc, member(doc, "error"))?));
    }
    read_endpoint(alloc, member(doc, "endpoint"))
}

/// Whether a rule says that it is of a type.
fn has_type(doc: &Doc, name: &str) -> bool
    requires { IsTrue (is_ascii_text name.now) }
    ensures { result ≡ bytes_eq (text_at (codes "type") doc.now) name.now }
{
    text_at(doc, "type") == name
}

#[tactic(auto, using(texts::proofs::Texts::chars_ascii))]
fn read_endpoint(alloc: Global, endpoint: Option<&Doc>) -> Result<Answer, OutOfMemory>
    ensures { IfOk result (λ answer. answer ≡ endpoint_answer (option_copied endpoint.entry)) }
{
    let Some(endpoint) = endpoint else {
        return Ok(Answer::Error(Expression::Literal(Doc::Null)));
    };
    let url = read_maybe(alloc, member(endpoint, "url"))?;
    let schemes = read_schemes(alloc, member(endpoint, "properties"))?;
    Ok(Answer::Endpoint(url, schemes))
}

/// The ways to sign that the properties of an endpoint list.
fn read_schemes(alloc: Global, properties: Option<&Doc>) -> Result<List<Doc>, OutOfMemory>
    ensures { IfOk result (λ schemes. schemes ≡ schemes_in (option_copied properties.entry)) }
{
    match properties {
        Some(properties) => copied_items(alloc, items_at(properties, "authSchemes")),
        None => Ok(List::new(alloc)),
    }
}

/// The conditions of a rule alone.
#[tactic(auto, using(texts::proofs::Texts::chars_ascii))]
fn read_conditions(alloc: Global, doc: &Doc) -> Result<List<Condition>, OutOfMemory>
    ensures { IfOk result (λ conditions. conditions ≡ conditions_of doc.now) }
{
    let mut conditions = List::new(alloc);
    for condition in items_at(doc, "conditions") {
        conditions.push(Condition {
            call: read_expression(alloc, condition)?,
            assign: copied_text(alloc, member(condition, "assign"))?,
        })?;
    }
    Ok(conditions)
}

/// An expression, where there is a document, else null.
fn read_maybe(alloc: Global, doc: Option<&Doc>) -> Result<Expression, OutOfMemory>
    ensures { IfOk result (λ made. made ≡ expression_or_null (option_copied doc.entry)) }
{
    match doc {
        Some(doc) => read_expression(alloc, doc),
        None => Ok(Expression::Literal(Doc::Null)),
    }
}

/// What an argument says.
#[cycle(expressions)]
fn read_expression(alloc: Global, doc: &Doc) -> Result<Expression, OutOfMemory>
    ensures { IfOk result (λ expression. expression ≡ expression_of doc.now) }
{
    match doc {
        Doc::Null => Ok(Expression::Literal(Doc::Null)),
        Doc::Flag(flag) => Ok(Expression::Literal(Doc::Flag(*flag))),
        Doc::Number(number) => Ok(Expression::Literal(Doc::Number(*number))),
        Doc::Str(text) => Ok(Expression::Template(text.copy(alloc)?)),
        Doc::Items(_) => Ok(Expression::Literal(Doc::Null)),
        Doc::Fields(fields) => match fields.get("ref") {
            Some(name) => Ok(Expression::Reference(text_or_empty(alloc, name)?)),
            None => read_call(alloc, fields),
        },
    }
}

#[cycle(expressions)]
fn read_call(alloc: Global, fields: &Pairs<Doc>) -> Result<Expression, OutOfMemory>
    ensures { IfOk result (λ expression. expression ≡ call_of fields.now) }
{
    let Some(function) = function_in(fields) else {
        return Ok(Expression::Literal(Doc::Null));
    };
    match fields.get("argv") {
        Some(Doc::Items(arguments)) => {
            let arguments = read_expressions(alloc, arguments.as_slice())?;
            Ok(Expression::Call(function, arguments))
        }
        _ => Ok(Expression::Literal(Doc::Null)),
    }
}

#[cycle(expressions)]
fn read_expressions(alloc: Global, docs: &[Doc]) -> Result<List<Expression>, OutOfMemory>
    ensures { IfOk result (λ expressions. expressions ≡ map expression_of docs.now) }
{
    let mut expressions = List::new(alloc);
    for doc in docs {
        expressions.push(read_expression(alloc, doc)?)?;
    }
    Ok(expressions)
}

/// An equal document, where there is one.
fn copied(alloc: Global, doc: Option<&Doc>) -> Result<Option<Doc>, OutOfMemory>
    ensures { IfOk result (λ made. made ≡ option_copied doc.entry) }
{
    match doc {
        Some(doc) => Ok(Some(copy(alloc, doc)?)),
        None => Ok(None),
    }
}

fn copied_items(alloc: Global, docs: &[Doc]) -> Result<List<Doc>, OutOfMemory>
    ensures { IfOk result (λ made. made ≡ docs.now) }
{
    let mut made = List::new(alloc);
    for doc in docs {
        made.push(copy(alloc, doc)?)?;
    }
    Ok(made)
}

/// The place of an item of the list at a place.
fn place_at(alloc: Global, place: &Text, at: usize) -> Result<Text, OutOfMemory>
    ensures { IfOk result (λ made. made ≡ place.now ++ 46 ∷ decimal at) }
{
    let digits = format!(in alloc; "{at}")?;
    let mut made = place.copy(alloc)?;
    made.push_ascii(".")?;
    made.push_str(digits.as_str())?;
    Ok(made)
}

/// The place of what stands at a key of the object at a place.
fn below(alloc: Global, place: &Text, key: &str) -> Result<Text, OutOfMemory>
    requires { IsTrue (is_ascii_text key.now) }
    ensures { IfOk result (λ made. made ≡ place.now ++ 46 ∷ key.now) }
{
    let mut made = place.copy(alloc)?;
    made.push_ascii(".")?;
    made.push_ascii(key)?;
    Ok(made)
}
