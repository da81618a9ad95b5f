//! Equality of documents.
ghost use Rattle.std.specs.Prelude.{◌≡◌, ◌&&◌, ◌==◌, length, map, option_map, IfSome, Some};
ghost use Rattle.std.specs.List.{list_all};
ghost use Rattle.json_doc.specs.declared.doc.Doc.TheViews.{out-Doc};
ghost use Rattle.texts.specs.Keys.{value_at};
ghost use Rattle.jmes_eval.specs.Equality.{same, each_same, has_doc_field};

use json_doc::{Doc, Pair, Pairs, Text};
use std::cmp::Ordering;

/// Whether two documents are equal: of one kind, with the same value, deep down. In objects the order
/// of the keys doesn't matter.
#[cycle(equality)]
pub fn same(a: &Doc, b: &Doc) -> bool
    ensures { result ≡ same a.now b.now }
{
    match (a, b) {
        (Doc::Null, Doc::Null) => true,
        (Doc::Flag(a), Doc::Flag(b)) => *a == *b,
        (Doc::Number(a), Doc::Number(b)) => a.cmp(b) == Ordering::Equal,
        (Doc::Str(a), Doc::Str(b)) => *a == *b,
        (Doc::Items(a), Doc::Items(b)) => same_items(a.as_slice(), b.as_slice()),
        (Doc::Fields(a), Doc::Fields(b)) => a.len() == b.len() && same_fields(a.as_slice(), b),
        _ => false,
    }
}

#[cycle(equality)]
fn same_items(a: &[Doc], b: &[Doc]) -> bool
    ensures { result ≡ each_same (map same a.now) b.now }
{
    if a.len() != b.len() {
        return false;
    }
    for (at, x) in a.iter().enumerate() {
        if !same(x, &b[at]) {
            return false;
        }
    }
    true
}

/// Whether each pair has an equal one.
#[cycle(equality)]
fn same_fields(a: &[Pair<Doc>], b: &Pairs<Doc>) -> bool
    ensures { result ≡ list_all (has_doc_field b.now) a.now }
{
    let mut next = 0;
    for pair in a {
        match value_near(b, next, &pair.key) {
            Some((behind, value)) => {
                if !same(&pair.value, value) {
                    return false;
                }
                next = behind;
            }
            None => return false,
        }
    }
    true
}

/// The value at a key, and the place behind it. It is looked for at a place first, and then at the last
/// but one before it: two objects mostly have their keys in one order, or in opposite ones.
fn value_near<'a>(fields: &'a Pairs<Doc>, next: usize, key: &Text) -> Option<(usize, &'a Doc)>
    ensures { option_map (λ found. found.1.now) result ≡ value_at key.now fields.now }
{
    if let Some(value) = value_there(fields, next, key) {
        return Some((next.saturating_add(1), value));
    }
    let before = next.saturating_sub(2);
    if let Some(value) = value_there(fields, before, key) {
        return Some((before.saturating_add(1), value));
    }
    value_far(fields, key)
}

/// The value at a place, where the key stands there.
fn value_there<'a>(fields: &'a Pairs<Doc>, at: usize, key: &Text) -> Option<&'a Doc>
    ensures { IfSome result (λ value. value_at key.now fields.now ≡ Some value.now) }
{
    if let Some(field) = fields.as_slice().get(at) {
        if field.key == *key {
            return Some(&field.value);
        }
    }
    None
}

fn value_far<'a>(fields: &'a Pairs<Doc>, key: &Text) -> Option<(usize, &'a Doc)>
    ensures { option_map (λ found. found.1.now) result ≡ value_at key.now fields.now }
{
    for (at, field) in fields.as_slice().iter().enumerate() {
        if field.key == *key {
            return Some((at.saturating_add(1), &field.value));
        }
    }
    None
}
