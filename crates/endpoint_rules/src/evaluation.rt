//! The values of expressions.
ghost use Rattle.std.specs.Prelude.{map, option_map};
ghost use Rattle.std.specs.Str.{chars};
ghost use Rattle.endpoint_rules.specs.Free.{stops_for_memory};
ghost use Rattle.texts.specs.Calls.{Answers};
ghost use Rattle.endpoint_rules.specs.declared.stop.Stop.TheVariants as stop;
ghost use Rattle.endpoint_rules.specs.Scopes.{seen_scope};
ghost use Rattle.endpoint_rules.specs.Values.{value_of, all_of, all_fields, expanded, text_named, expanded_in, expanded_field};

use crate::library::apply;
use crate::scope::Scope;
use crate::stop::Stop;
use json_doc::{Doc, copy};
use rule_terms::{Expression, Piece, attribute, name_and_path, pieces_of};
use std::alloc::Global;
use texts::{List, Pairs, Text};

/// The value of an expression.
#[cycle(evaluation)]
pub fn value(alloc: Global, scope: &Scope<'_>, expression: &Expression) -> Result<Doc, Stop>
    ensures { Answers stops_for_memory (λ value. value) result (value_of (seen_scope scope.now) expression.now) }
{
    match expression {
        Expression::Literal(literal) => Ok(copy(alloc, literal)?),
        Expression::Template(text) => Ok(Doc::Str(expand(alloc, scope, text.as_str())?)),
        Expression::Reference(name) => Ok(scope.value(alloc, name.as_str())?),
        Expression::Call(function, arguments) => {
            let values = values(alloc, scope, arguments.as_slice())?;
            apply(alloc, scope.partitions, *function, values.as_slice())
        }
    }
}

#[cycle(evaluation)]
fn values(alloc: Global, scope: &Scope<'_>, expressions: &[Expression]) -> Result<List<Doc>, Stop>
    ensures { Answers stops_for_memory (λ values. values) result
        (all_of (map (value_of (seen_scope scope.now)) expressions.now)) }
{
    let mut values = List::new(alloc);
    for expression in expressions {
        values.push(value(alloc, scope, expression)?)?;
    }
    Ok(values)
}

/// The text of a template: each of its names must have a text.
pub fn expand(alloc: Global, scope: &Scope<'_>, template: &str) -> Result<Text, Stop>
    ensures { Answers stops_for_memory (λ text. text) result
        (expanded (seen_scope scope.now) (chars template.now)) }
{
    let pieces = pieces_of(alloc, template)?;
    let mut text = Text::new(alloc);
    for piece in pieces.as_slice() {
        match piece {
            Piece::Char(c) => text.push(*c)?,
            Piece::Named(words) => {
                let (name, path) = name_and_path(words.as_str());
                text.push_str(text_named(alloc, scope, name, path)?.as_str())?;
            }
        }
    }
    Ok(text)
}

/// The text under a name, or at a path in what stands there.
fn text_named<'a>(
    alloc: Global,
    scope: &'a Scope<'_>,
    name: &str,
    path: Option<&str>,
) -> Result<&'a Text, Stop>
    ensures { Answers stops_for_memory (λ text. text.now) result
        (text_named (chars name.now) (option_map (λ path. chars path.now) path.entry) (seen_scope scope.now)) }
{
    let found = match (scope.find(name), path) {
        (Some(value), Some(path)) => attribute(alloc, value, path)?,
        (found, _) => found,
    };
    match found {
        Some(Doc::Str(text)) => Ok(text),
        _ => Err(Stop::Clash),
    }
}

/// A document with each of its texts expanded.
#[cycle(expansion)]
fn expand_in(alloc: Global, scope: &Scope<'_>, doc: &Doc) -> Result<Doc, Stop>
    ensures { Answers stops_for_memory (λ doc. doc) result (expanded_in (seen_scope scope.now) doc.now) }
{
    match doc {
        Doc::Str(text) => Ok(Doc::Str(expand(alloc, scope, text.as_str())?)),
        Doc::Items(items) => Ok(Doc::Items(expand_items(alloc, scope, items.as_slice())?)),
        Doc::Fields(fields) => Ok(Doc::Fields(expand_fields(alloc, scope, fields)?)),
        Doc::Null => Ok(Doc::Null),
        Doc::Flag(flag) => Ok(Doc::Flag(*flag)),
        Doc::Number(number) => Ok(Doc::Number(*number)),
    }
}

/// Documents with each of their texts expanded.
#[cycle(expansion)]
pub fn expand_items(alloc: Global, scope: &Scope<'_>, items: &[Doc]) -> Result<List<Doc>, Stop>
    ensures { Answers stops_for_memory (λ items. items) result
        (all_of (map (expanded_in (seen_scope scope.now)) items.now)) }
{
    let mut made = List::new(alloc);
    for item in items {
        made.push(expand_in(alloc, scope, item)?)?;
    }
    Ok(made)
}

#[cycle(expansion)]
fn expand_fields(alloc: Global, scope: &Scope<'_>, fields: &Pairs<Doc>) -> Result<Pairs<Doc>, Stop>
    ensures { Answers stops_for_memory (λ fields. fields) result
        (all_fields (map (expanded_field (seen_scope scope.now)) fields.now)) }
{
    let mut made = Pairs::new(alloc);
    for field in fields.as_slice() {
        let value = expand_in(alloc, scope, &field.value)?;
        made.push_new(field.key.copy(alloc)?, value)?;
    }
    Ok(made)
}
