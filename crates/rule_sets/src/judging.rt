//! The first bad place of a rule set, in the order of the document.
ghost use Rattle.std.specs.Prelude.{◌≡◌, ◌^◌, ◌-◌, min, not, nat_lt, IsTrue, OnOk, codes};
ghost use Rattle.std.specs.Option.{option_copied};
ghost use Rattle.json_doc.specs.declared.doc.Doc.TheVariants as doc_of;
ghost use Rattle.texts.specs.Ascii.{is_ascii_text};
ghost use Rattle.texts.specs.Keys.{value_at};
ghost use Rattle.rule_sets.specs.BadPlaces.{Judges, each_field, each_item, has_key, fine_if};
ghost use Rattle.rule_sets.specs.BadRules.{judged_rules, judged_part, any_text, any_flag, judged_condition_part, judged_rule_part, judged_answer, answer_key, judged_kind, rule_step, judged_parameters, judged_parameter, judged_parameter_part, is_list_type, is_type, leaves_in, leaves_of_rule, kind_of, kind_named, judged_list, judged_rule, judged_rule_of, has_answer, conditions_in, judged_conditions, judged_condition, function_in, judged_call, judged_call_part, argument_step, judged_arguments, judged_argument, judged_name, judged_wanted, judged_template, judged_piece, judged_number, judged_function};
ghost use Rattle.rule_sets.specs.Names.{with_conditions};
ghost use Rattle.rule_terms.specs.Seen.{or_empty, text_in};
ghost use Rattle.rule_sets.specs.Trees.{told};

use crate::judging_endpoints::judge_endpoint;
use crate::names::Names;
use crate::rule_set::MOST_LEAVES;
use json_doc::Doc;
use model_files::{
    ModelFault, inside, items, missing_below, move_to, needed, object, text, wrong_kind,
};
use rule_terms::{Function, Piece, name_and_path, pieces_of};
use std::alloc::Global;
use texts::{List, OutOfMemory, Pair, Pairs, Text};

/// What a rule answers with.
#[derive(Clone, Copy, Debug, PartialEq, Eq)]
pub enum RuleKind {
    Endpoint,
    Error,
    Tree,
}

impl RuleKind {
    /// The key of what a rule of this kind answers with.
    fn key(self) -> &'static str
        ensures value { result.now ≡ answer_key self }
        ensures ascii { IsTrue (is_ascii_text result.now) }
    {
        match self {
            RuleKind::Endpoint => "endpoint",
            RuleKind::Error => "error",
            RuleKind::Tree => "rules",
        }
    }
}

/// The first bad place of a rule set.
pub fn judge_rules(alloc: Global, doc: &Doc) -> Result<(), ModelFault>
    ensures { Judges result (judged_rules doc.now) }
{
    let fields = object(doc)?;
    need(alloc, fields, "parameters")?;
    need(alloc, fields, "rules")?;
    let names = Names::of_parameters(alloc, fields.get("parameters"))?;
    judge_parts(alloc, names, fields)
}

fn judge_parts(alloc: Global, mut names: Names, fields: &Pairs<Doc>) -> Result<(), ModelFault>
    ensures { Judges result (each_field (judged_part names) fields.now) }
{
    for field in fields.as_slice() {
        let judged = judge_part(alloc, &mut names, &field.key, &field.value);
        inside(alloc, field.key.as_str(), judged)?;
    }
    Ok(())
}

fn judge_part(alloc: Global, names: &mut Names, key: &Text, doc: &Doc) -> Result<(), ModelFault>
    ensures judged { Judges result (judged_part names.old key.now doc.now) }
    ensures kept { OnOk result (names.new ≡ names.old) }
{
    if key.is("parameters") {
        return judge_parameters(alloc, doc);
    }
    if key.is("rules") {
        demand(has_few_leaves(doc))?;
        return judge_list(alloc, names, doc);
    }
    Ok(())
}

fn judge_parameters(alloc: Global, doc: &Doc) -> Result<(), ModelFault>
    ensures { Judges result (judged_parameters doc.now) }
{
    for field in object(doc)?.as_slice() {
        let judged = judge_parameter(alloc, &field.value);
        inside(alloc, field.key.as_str(), judged)?;
    }
    Ok(())
}

fn judge_parameter(alloc: Global, doc: &Doc) -> Result<(), ModelFault>
    ensures { Judges result (judged_parameter doc.now) }
{
    let fields = object(doc)?;
    need(alloc, fields, "type")?;
    let is_list = is_list_type(fields.get("type"));
    for field in fields.as_slice() {
        let judged = judge_parameter_part(is_list, &field.key, &field.value);
        inside(alloc, field.key.as_str(), judged)?;
    }
    Ok(())
}

/// Whether the type of a parameter is that of lists of texts, in any letter case. Such a parameter is
/// unset, whatever its default is.
pub fn is_list_type(doc: Option<&Doc>) -> bool
    ensures { result ≡ is_list_type (or_empty (text_in (option_copied doc.entry))) }
{
    match doc {
        Some(Doc::Str(name)) => name.as_str().eq_ignore_ascii_case("stringArray"),
        _ => false,
    }
}

fn judge_parameter_part(is_list: bool, key: &Text, doc: &Doc) -> Result<(), ModelFault>
    ensures { Judges result (judged_parameter_part is_list key.now doc.now) }
{
    if key.is("type") {
        return demand(is_type(text(doc)?));
    }
    if key.is("required") {
        return any_flag(doc);
    }
    if key.is("builtIn") {
        return any_text(doc);
    }
    if key.is("default") {
        return demand(is_list || matches!(doc, Doc::Str(_) | Doc::Flag(_)));
    }
    Ok(())
}

/// Whether a text is a type of parameters, in any letter case.
fn is_type(name: &Text) -> bool
    ensures { result ≡ is_type name.now }
{
    let name = name.as_str();
    name.eq_ignore_ascii_case("string")
        || name.eq_ignore_ascii_case("boolean")
        || name.eq_ignore_ascii_case("stringArray")
}

/// A value that isn't as it is to be is bad.
pub fn demand(fitting: bool) -> Result<(), ModelFault>
    ensures { Judges result (fine_if fitting) }
{
    if fitting { Ok(()) } else { Err(wrong_kind()) }
}

pub fn any_text(doc: &Doc) -> Result<(), ModelFault>
    ensures { Judges result (any_text doc.now) }
{
    let _ = text(doc)?;
    Ok(())
}

pub fn any_flag(doc: &Doc) -> Result<(), ModelFault>
    ensures { Judges result (any_flag doc.now) }
{
    demand(matches!(doc, Doc::Flag(_)))
}

/// Whether rules have no more leaves than are read.
fn has_few_leaves(doc: &Doc) -> bool
    ensures { result ≡ not (nat_lt 100000 (leaves_in doc.now)) }
{
    leaves_in(doc) <= MOST_LEAVES
}

/// How many leaves a list of rules has.
#[cycle(counting)]
fn leaves_in(doc: &Doc) -> usize
    ensures { result ≡ min (leaves_in doc.now) (2 ^ 64 - 1) }
{
    let Doc::Items(rules) = doc else {
        return 0;
    };
    let mut leaves = 0usize;
    for rule in rules.as_slice() {
        leaves = leaves.saturating_add(leaves_of(rule));
    }
    leaves
}

/// How many leaves a rule has: one that isn't a tree is one.
#[cycle(counting)]
fn leaves_of(rule: &Doc) -> usize
    ensures { result ≡ min (leaves_of_rule rule.now) (2 ^ 64 - 1) }
{
    match rule {
        Doc::Fields(fields) => leaves_of_fields(fields),
        _ => 0,
    }
}

#[cycle(counting)]
fn leaves_of_fields(fields: &Pairs<Doc>) -> usize
    ensures { result ≡ min (leaves_of_rule (doc_of.Fields fields.now)) (2 ^ 64 - 1) }
{
    match kind_of(fields) {
        Some(RuleKind::Tree) => match fields.get("rules") {
            Some(rules) => leaves_in(rules),
            None => 0,
        },
        Some(RuleKind::Endpoint) => 1,
        Some(RuleKind::Error) => 1,
        None => 0,
    }
}

fn kind_of(fields: &Pairs<Doc>) -> Option<RuleKind>
    ensures { result ≡ kind_of fields.now }
{
    match fields.get("type") {
        Some(Doc::Str(name)) => kind_named(name),
        _ => None,
    }
}

fn kind_named(name: &Text) -> Option<RuleKind>
    ensures { result ≡ kind_named name.now }
{
    if name.is("endpoint") {
        return Some(RuleKind::Endpoint);
    }
    if name.is("error") {
        return Some(RuleKind::Error);
    }
    if name.is("tree") {
        return Some(RuleKind::Tree);
    }
    None
}

/// The first bad place of a list of rules. The names are those before, where nothing is bad.
#[cycle(judging)]
fn judge_list(alloc: Global, names: &mut Names, doc: &Doc) -> Result<(), ModelFault>
    ensures judged { Judges result (judged_list names.old doc.now) }
    ensures kept { OnOk result (names.new ≡ names.old) }
{
    let Doc::Items(rules) = doc else {
        return Err(wrong_kind());
    };
    judge_each_rule(alloc, names, rules)
}

#[cycle(judging)]
fn judge_each_rule(alloc: Global, names: &mut Names, rules: &List<Doc>) -> Result<(), ModelFault>
    ensures judged { Judges result (each_item (judged_rule names.old) 0 rules.now) }
    ensures kept { OnOk result (names.new ≡ names.old) }
{
    for (at, rule) in rules.as_slice().iter().enumerate() {
        if let Err(fault) = judge_rule(alloc, names, rule) {
            return Err(move_to(alloc, at, fault));
        }
    }
    Ok(())
}

#[cycle(judging)]
fn judge_rule(alloc: Global, names: &mut Names, doc: &Doc) -> Result<(), ModelFault>
    ensures judged { Judges result (judged_rule names.old doc.now) }
    ensures kept { OnOk result (names.new ≡ names.old) }
{
    let Doc::Fields(fields) = doc else {
        return Err(wrong_kind());
    };
    judge_rule_fields(alloc, names, fields)
}

#[cycle(judging)]
fn judge_rule_fields(
    alloc: Global,
    names: &mut Names,
    fields: &Pairs<Doc>,
) -> Result<(), ModelFault>
    ensures judged { Judges result (judged_rule_of names.old fields.now) }
    ensures kept { OnOk result (names.new ≡ names.old) }
{
    need(alloc, fields, "type")?;
    let kind = kind_of(fields);
    judge_needed(alloc, kind, fields)?;
    judge_rule_parts(alloc, names, kind, conditions_in(fields), fields)
}

#[cycle(judging)]
fn judge_rule_parts(
    alloc: Global,
    names: &mut Names,
    kind: Option<RuleKind>,
    conditions: &[Doc],
    fields: &Pairs<Doc>,
) -> Result<(), ModelFault>
    ensures judged { Judges result
        (each_field (λ key doc. judged_rule_part kind conditions.now names.old key (told rule_step doc)) fields.now) }
    ensures kept { OnOk result (names.new ≡ names.old) }
{
    for field in fields.as_slice() {
        let judged = judge_rule_part(alloc, names, kind, conditions, field);
        inside(alloc, field.key.as_str(), judged)?;
    }
    Ok(())
}

#[cycle(judging)]
fn judge_rule_part(
    alloc: Global,
    names: &mut Names,
    kind: Option<RuleKind>,
    conditions: &[Doc],
    field: &Pair<Doc>,
) -> Result<(), ModelFault>
    ensures judged { Judges result (judged_rule_part kind conditions.now names.old field.now.key (told rule_step field.now.value)) }
    ensures kept { OnOk result (names.new ≡ names.old) }
{
    if field.key.is("type") {
        return judge_kind(&field.value);
    }
    if field.key.is("conditions") {
        return judge_conditions(alloc, names, &field.value);
    }
    let Some(kind) = kind else {
        return Ok(());
    };
    if field.key.is(kind.key()) {
        return judge_answer(alloc, names, kind, conditions, &field.value);
    }
    Ok(())
}

/// The first bad place of what a rule answers with. It sees the names that its conditions assign.
#[cycle(judging)]
fn judge_answer(
    alloc: Global,
    names: &mut Names,
    kind: RuleKind,
    conditions: &[Doc],
    doc: &Doc,
) -> Result<(), ModelFault>
    ensures judged { Judges result (judged_answer kind (with_conditions conditions.now names.old) (told rule_step doc.now)) }
    ensures kept { OnOk result (names.new ≡ names.old) }
{
    let outer = names.len();
    add_all(alloc, names, conditions)?;
    judge_by_kind(alloc, names, kind, doc)?;
    names.leave(outer);
    Ok(())
}

#[cycle(judging)]
fn judge_by_kind(
    alloc: Global,
    names: &mut Names,
    kind: RuleKind,
    doc: &Doc,
) -> Result<(), ModelFault>
    ensures judged { Judges result (judged_answer kind names.old (told rule_step doc.now)) }
    ensures kept { OnOk result (names.new ≡ names.old) }
{
    match kind {
        RuleKind::Endpoint => judge_endpoint(alloc, names, doc),
        RuleKind::Error => judge_wanted(alloc, names, doc),
        RuleKind::Tree => judge_list(alloc, names, doc),
    }
}

/// Puts the names that conditions assign behind the others.
fn add_all(alloc: Global, names: &mut Names, conditions: &[Doc]) -> Result<(), OutOfMemory>
    ensures { OnOk result (names.new ≡ with_conditions conditions.now names.old) }
{
    for condition in conditions {
        names.add(alloc, condition)?;
    }
    Ok(())
}

/// A rule has what its type names.
fn judge_needed(
    alloc: Global,
    kind: Option<RuleKind>,
    fields: &Pairs<Doc>,
) -> Result<(), ModelFault>
    ensures { Judges result (has_answer kind fields.now) }
{
    match kind {
        Some(RuleKind::Endpoint) if fields.get("endpoint").is_none() => {
            Err(missing_below(alloc, "endpoint", "url"))
        }
        Some(kind) => need(alloc, fields, kind.key()),
        None => Ok(()),
    }
}

/// Something stands at a key.
#[tactic(auto, unfolding(model_files::specs::Reading::needed))]
pub fn need(alloc: Global, fields: &Pairs<Doc>, key: &str) -> Result<(), ModelFault>
    requires { IsTrue (is_ascii_text key.now) }
    ensures { Judges result (has_key key.now fields.now) }
{
    let _ = needed(alloc, fields, key)?;
    Ok(())
}

fn judge_kind(doc: &Doc) -> Result<(), ModelFault>
    ensures { Judges result (judged_kind doc.now) }
{
    demand(kind_named(text(doc)?).is_some())
}

/// The conditions of a rule alone: none where it has no list of them.
fn conditions_in(fields: &Pairs<Doc>) -> &[Doc]
    ensures { result.now ≡ conditions_in fields.now }
{
    match fields.get("conditions") {
        Some(Doc::Items(conditions)) => conditions.as_slice(),
        _ => &[],
    }
}

/// The first bad place of conditions, each of which sees the names of those before it.
fn judge_conditions(alloc: Global, names: &mut Names, doc: &Doc) -> Result<(), ModelFault>
    ensures judged { Judges result (judged_conditions names.old doc.now) }
    ensures kept { OnOk result (names.new ≡ names.old) }
{
    let outer = names.len();
    for (at, condition) in items(doc)?.as_slice().iter().enumerate() {
        if let Err(fault) = judge_condition(alloc, names, condition) {
            return Err(move_to(alloc, at, fault));
        }
        names.add(alloc, condition)?;
    }
    names.leave(outer);
    Ok(())
}

/// The first bad place of a condition: a call, with a name for its value or without.
fn judge_condition(alloc: Global, names: &Names, doc: &Doc) -> Result<(), ModelFault>
    ensures { Judges result (judged_condition names.now doc.now) }
{
    let fields = object(doc)?;
    need(alloc, fields, "fn")?;
    need(alloc, fields, "argv")?;
    let function = function_in(fields);
    for field in fields.as_slice() {
        let judged = judge_condition_part(alloc, names, function, &field.key, &field.value);
        inside(alloc, field.key.as_str(), judged)?;
    }
    Ok(())
}

fn judge_condition_part(
    alloc: Global,
    names: &Names,
    function: Option<Function>,
    key: &Text,
    doc: &Doc,
) -> Result<(), ModelFault>
    ensures { Judges result (judged_condition_part names.now function key.now doc.now) }
{
    if key.is("assign") {
        return any_text(doc);
    }
    judge_call_part(alloc, names, function, key, doc)
}

fn judge_function(doc: &Doc) -> Result<(), ModelFault>
    ensures { Judges result (judged_function doc.now) }
{
    demand(Function::named(text(doc)?).is_some())
}

/// The function that a call names, if it is one.
pub fn function_in(fields: &Pairs<Doc>) -> Option<Function>
    ensures { result ≡ function_in (value_at (codes "fn") fields.now) }
{
    match fields.get("fn") {
        Some(Doc::Str(name)) => Function::named(name),
        _ => None,
    }
}

#[cycle(arguments)]
fn judge_call(alloc: Global, names: &Names, fields: &Pairs<Doc>) -> Result<(), ModelFault>
    ensures { Judges result (judged_call names.now fields.now) }
{
    need(alloc, fields, "fn")?;
    need(alloc, fields, "argv")?;
    judge_call_parts(alloc, names, function_in(fields), fields)
}

#[cycle(arguments)]
fn judge_call_parts(
    alloc: Global,
    names: &Names,
    function: Option<Function>,
    fields: &Pairs<Doc>,
) -> Result<(), ModelFault>
    ensures { Judges result
        (each_field (λ key doc. judged_call_part names.now function key (told argument_step doc)) fields.now) }
{
    for field in fields.as_slice() {
        let judged = judge_call_part(alloc, names, function, &field.key, &field.value);
        inside(alloc, field.key.as_str(), judged)?;
    }
    Ok(())
}

#[cycle(arguments)]
fn judge_call_part(
    alloc: Global,
    names: &Names,
    function: Option<Function>,
    key: &Text,
    doc: &Doc,
) -> Result<(), ModelFault>
    ensures { Judges result (judged_call_part names.now function key.now (told argument_step doc.now)) }
{
    if key.is("fn") {
        return judge_function(doc);
    }
    if key.is("argv") {
        return judge_arguments(alloc, names, function, doc);
    }
    Ok(())
}

/// The first bad place of arguments, of which a function takes so many.
#[cycle(arguments)]
fn judge_arguments(
    alloc: Global,
    names: &Names,
    function: Option<Function>,
    doc: &Doc,
) -> Result<(), ModelFault>
    ensures { Judges result (judged_arguments function names.now doc.now) }
{
    let Doc::Items(arguments) = doc else {
        return Err(wrong_kind());
    };
    judge_number(function, arguments.len())?;
    judge_each_argument(alloc, names, arguments)
}

#[cycle(arguments)]
fn judge_each_argument(
    alloc: Global,
    names: &Names,
    arguments: &List<Doc>,
) -> Result<(), ModelFault>
    ensures { Judges result (each_item (judged_argument names.now) 0 arguments.now) }
{
    for (at, argument) in arguments.as_slice().iter().enumerate() {
        if let Err(fault) = judge_argument(alloc, names, argument) {
            return Err(move_to(alloc, at, fault));
        }
    }
    Ok(())
}

/// A function takes so many arguments. How many stand behind no function doesn't matter.
fn judge_number(function: Option<Function>, count: usize) -> Result<(), ModelFault>
    ensures { Judges result (judged_number function count) }
{
    match function {
        Some(function) => demand(count == function.arity()),
        None => Ok(()),
    }
}

#[cycle(arguments)]
fn judge_argument(alloc: Global, names: &Names, doc: &Doc) -> Result<(), ModelFault>
    ensures { Judges result (judged_argument names.now doc.now) }
{
    match doc {
        Doc::Null | Doc::Flag(_) | Doc::Number(_) => Ok(()),
        Doc::Str(template) => judge_template(alloc, names, template),
        Doc::Items(_) => Err(wrong_kind()),
        Doc::Fields(fields) => match fields.get("ref") {
            Some(name) => inside(alloc, "ref", judge_name(names, name)),
            None => judge_call(alloc, names, fields),
        },
    }
}

fn judge_name(names: &Names, doc: &Doc) -> Result<(), ModelFault>
    ensures { Judges result (judged_name names.now doc.now) }
{
    demand(names.knows(text(doc)?.as_str()))
}

/// The first bad place where a text is wanted: a template, a name or a call.
pub fn judge_wanted(alloc: Global, names: &Names, doc: &Doc) -> Result<(), ModelFault>
    ensures { Judges result (judged_wanted names.now doc.now) }
{
    match doc {
        Doc::Str(_) | Doc::Fields(_) => judge_argument(alloc, names, doc),
        _ => Err(wrong_kind()),
    }
}

/// Each name of a template is known.
pub fn judge_template(alloc: Global, names: &Names, template: &Text) -> Result<(), ModelFault>
    ensures { Judges result (judged_template names.now template.now) }
{
    let pieces = pieces_of(alloc, template.as_str())?;
    for piece in pieces.as_slice() {
        judge_piece(names, piece)?;
    }
    Ok(())
}

fn judge_piece(names: &Names, piece: &Piece) -> Result<(), ModelFault>
    ensures { Judges result (judged_piece names.now piece.now) }
{
    match piece {
        Piece::Char(_) => Ok(()),
        Piece::Named(words) => {
            let (name, _) = name_and_path(words.as_str());
            demand(names.knows(name))
        }
    }
}
