//! Values set along a chain of names.
ghost use Rattle.std.specs.Prelude.{◌≡◌, ◌≤◌, ◌+◌, ◌++◌, ◌∷◌, [], map, length, take, drop, IfOk, OnOk, OnErr};
ghost use Rattle.std.specs.List.{AllByRecursion};
ghost use Rattle.std.specs.Option.{option_copied};
ghost use Rattle.json_doc.specs.declared.doc.Doc.{Doc as Document};
ghost use Rattle.texts.specs.Keys.{keys, IsDistinct, put, value_at};
ghost use Rattle.jmes_syntax.specs.Paths.{IsField, IsPath};
ghost use Rattle.jmes_eval.specs.Orders.{doc_or_null};
ghost use Rattle.jmes_eval.specs.Setting.{name_in, names_in, pairs_in, pairs_of, path_of, set_at, objects_along, named_pairs};

use jmes_syntax::{Expr, Step};
use json_doc::{Doc, OutOfMemory, Pair, Pairs, Text, copy};
use std::alloc::Global;

/// Sets a value along a chain of names. Missing objects are made, and what is no object on the way is
/// replaced. After a refusal the document is unchanged.
pub fn set(alloc: Global, path: &Expr, doc: &mut Doc, value: Doc) -> Result<(), OutOfMemory>
    requires { IsPath path.now }
    ensures ok { OnOk result (doc.new ≡ set_at (path_of path.now) value doc.old) }
    ensures err { OnErr result (doc.new ≡ doc.old) }
{
    match path {
        Expr::Operand(operand) => {
            let steps = operand.chain.first.as_slice();
            *doc = with_value(alloc, steps, doc, value)?;
            Ok(())
        }
        _ => unreachable!(),
    }
}

/// The document with the value set along the names of steps, built from the innermost object out.
fn with_value(
    alloc: Global,
    steps: &[Step<Expr>],
    doc: &Doc,
    value: Doc,
) -> Result<Doc, OutOfMemory>
    requires { AllByRecursion IsField steps.now }
    ensures { IfOk result (λ made. made ≡ set_at (names_in steps.now) value doc.now) }
{
    let mut objects = objects_along(alloc, steps, doc)?;
    let mut made = value;
    while let Some((name, object)) = objects.pop() {
        made = Doc::Fields(with_field(alloc, object, name, made)?);
    }
    Ok(made)
}

/// The names of steps, each with the object that is looked at there, where one stands.
fn objects_along<'a>(
    alloc: Global,
    steps: &'a [Step<Expr>],
    doc: &'a Doc,
) -> Result<Vec<(&'a Text, Option<&'a Pairs<Doc>>)>, OutOfMemory>
    requires { AllByRecursion IsField steps.now }
    ensures { IfOk result (λ made. map named_pairs made.items ≡ objects_along (names_in steps.now) doc.now) }
{
    let mut made = Vec::new(alloc);
    let mut at = Some(doc);
    for step in steps {
        let name = name_of(step);
        let object = fields_in(at);
        made.push((name, object))?;
        at = value_in(object, name);
    }
    Ok(made)
}

fn name_of(step: &Step<Expr>) -> &Text
    requires { IsField step.now }
    ensures { name_in step.now ≡ result.now ∷ [] }
{
    match step {
        Step::Field(name) => name,
        _ => unreachable!(),
    }
}

/// The pairs of a document that is an object.
fn fields_in(doc: Option<&Doc>) -> Option<&Pairs<Doc>>
    ensures { pairs_in (option_copied result) ≡ pairs_of (doc_or_null (option_copied doc.entry)) }
{
    match doc {
        Some(Doc::Fields(fields)) => Some(fields),
        _ => None,
    }
}

/// The value at a name among pairs.
fn value_in<'a>(fields: Option<&'a Pairs<Doc>>, name: &Text) -> Option<&'a Doc>
    ensures { option_copied result ≡ value_at name.now (pairs_in (option_copied fields.entry)) }
{
    match fields {
        Some(fields) => fields.get(name.as_str()),
        None => None,
    }
}

/// A value put at a name among copies of the other pairs.
fn with_field(
    alloc: Global,
    fields: Option<&Pairs<Doc>>,
    name: &Text,
    value: Doc,
) -> Result<Pairs<Doc>, OutOfMemory>
    ensures { IfOk result (λ made. made ≡ put (pairs_in (option_copied fields.entry)) name.now value) }
{
    match fields {
        Some(fields) => with_pair(alloc, fields.as_slice(), name, value),
        None => {
            let mut made = Pairs::new(alloc);
            made.push_new(name.copy(alloc)?, value)?;
            Ok(made)
        }
    }
}

fn with_pair(
    alloc: Global,
    fields: &[Pair<Doc>],
    name: &Text,
    value: Doc,
) -> Result<Pairs<Doc>, OutOfMemory>
    requires { IsDistinct (keys fields.now) }
    ensures { IfOk result (λ made. made ≡ put fields.now name.now value) }
{
    let at = place_of(fields, name);
    let mut made = Pairs::new(alloc);
    push_copies(alloc, &mut made, &fields[..at])?;
    made.push_new(name.copy(alloc)?, value)?;
    if at < fields.len() {
        push_copies(alloc, &mut made, &fields[at + 1..])?;
    }
    Ok(made)
}

/// Where the key stands, or how many pairs there are.
fn place_of(fields: &[Pair<Doc>], name: &Text) -> usize
    ensures within { result ≤ length fields.now }
    ensures replaced { (v : Document) → put fields.now name.now v ≡ take result fields.now ++ (record { key = name.now; value = v }) ∷ drop (result + 1) fields.now }
{
    for (at, field) in fields.iter().enumerate() {
        if field.key == *name {
            return at;
        }
    }
    fields.len()
}

/// Puts copies of pairs at the end.
fn push_copies(
    alloc: Global,
    made: &mut Pairs<Doc>,
    fields: &[Pair<Doc>],
) -> Result<(), OutOfMemory>
    requires { IsDistinct (keys (made.old ++ fields.now)) }
    ensures { OnOk result (made.new ≡ made.old ++ fields.now) }
{
    for field in fields {
        made.push_new(field.key.copy(alloc)?, copy(alloc, &field.value)?)?;
    }
    Ok(())
}
