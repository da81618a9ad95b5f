//! The first bad place of the endpoint of a rule.
ghost use Rattle.rule_sets.specs.BadPlaces.{Judges, each_item, each_field};
ghost use Rattle.rule_sets.specs.BadRules.{judged_endpoint, judged_properties, judged_schemes, judged_scheme, judged_scheme_part, judged_texts, judged_endpoint_part, judged_scheme_text};

use crate::judging::{any_text, judge_template, judge_wanted, need};
use crate::names::Names;
use json_doc::Doc;
use model_files::{ModelFault, inside, items, move_to, object};
use std::alloc::Global;
use texts::{List, Pairs, Text};

/// The first bad place of an endpoint: its URL, and the ways to sign.
pub fn judge_endpoint(alloc: Global, names: &Names, doc: &Doc) -> Result<(), ModelFault>
    ensures { Judges result (judged_endpoint names.now doc.now) }
{
    let fields = object(doc)?;
    need(alloc, fields, "url")?;
    for field in fields.as_slice() {
        let judged = judge_endpoint_part(alloc, names, &field.key, &field.value);
        inside(alloc, field.key.as_str(), judged)?;
    }
    Ok(())
}

fn judge_endpoint_part(
    alloc: Global,
    names: &Names,
    key: &Text,
    doc: &Doc,
) -> Result<(), ModelFault>
    ensures { Judges result (judged_endpoint_part names.now key.now doc.now) }
{
    if key.is("url") {
        return judge_wanted(alloc, names, doc);
    }
    if key.is("properties") {
        return judge_properties(alloc, names, doc);
    }
    Ok(())
}

fn judge_properties(alloc: Global, names: &Names, doc: &Doc) -> Result<(), ModelFault>
    ensures { Judges result (judged_properties names.now doc.now) }
{
    for field in object(doc)?.as_slice() {
        if field.key.is("authSchemes") {
            inside(
                alloc,
                "authSchemes",
                judge_schemes(alloc, names, &field.value),
            )?;
        }
    }
    Ok(())
}

fn judge_schemes(alloc: Global, names: &Names, doc: &Doc) -> Result<(), ModelFault>
    ensures { Judges result (judged_schemes names.now doc.now) }
{
    for (at, scheme) in items(doc)?.as_slice().iter().enumerate() {
        if let Err(fault) = judge_scheme(alloc, names, scheme) {
            return Err(move_to(alloc, at, fault));
        }
    }
    Ok(())
}

/// The first bad place of a way to sign.
fn judge_scheme(alloc: Global, names: &Names, doc: &Doc) -> Result<(), ModelFault>
    ensures { Judges result (judged_scheme names.now doc.now) }
{
    for field in object(doc)?.as_slice() {
        let judged = judge_scheme_part(alloc, names, &field.key, &field.value);
        inside(alloc, field.key.as_str(), judged)?;
    }
    Ok(())
}

fn judge_scheme_part(alloc: Global, names: &Names, key: &Text, doc: &Doc) -> Result<(), ModelFault>
    ensures { Judges result (judged_scheme_part names.now key.now doc.now) }
{
    judge_scheme_text(key, doc)?;
    judge_texts(alloc, names, doc)
}

/// What names a way to sign and its scope is a text.
fn judge_scheme_text(key: &Text, doc: &Doc) -> Result<(), ModelFault>
    ensures { Judges result (judged_scheme_text key.now doc.now) }
{
    if key.is("name") || key.is("signingName") || key.is("signingRegion") {
        return any_text(doc);
    }
    Ok(())
}

/// Each text of a document is a template whose names are known.
#[cycle(texts)]
fn judge_texts(alloc: Global, names: &Names, doc: &Doc) -> Result<(), ModelFault>
    ensures { Judges result (judged_texts names.now doc.now) }
{
    match doc {
        Doc::Str(template) => judge_template(alloc, names, template),
        Doc::Items(items) => judge_items(alloc, names, items),
        Doc::Fields(fields) => judge_fields(alloc, names, fields),
        Doc::Null | Doc::Flag(_) | Doc::Number(_) => Ok(()),
    }
}

#[cycle(texts)]
fn judge_items(alloc: Global, names: &Names, items: &List<Doc>) -> Result<(), ModelFault>
    ensures { Judges result (each_item (judged_texts names.now) 0 items.now) }
{
    for (at, item) in items.as_slice().iter().enumerate() {
        if let Err(fault) = judge_texts(alloc, names, item) {
            return Err(move_to(alloc, at, fault));
        }
    }
    Ok(())
}

#[cycle(texts)]
fn judge_fields(alloc: Global, names: &Names, fields: &Pairs<Doc>) -> Result<(), ModelFault>
    ensures { Judges result (each_field (λ key doc. judged_texts names.now doc) fields.now) }
{
    for field in fields.as_slice() {
        let judged = judge_texts(alloc, names, &field.value);
        inside(alloc, field.key.as_str(), judged)?;
    }
    Ok(())
}
