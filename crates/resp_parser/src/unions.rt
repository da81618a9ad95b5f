//! Unions whose one member the model doesn't know.
ghost use Rattle.std.specs.Prelude.{◌≡◌, [], ◌∷◌, filter, IfOk, option_copied};
ghost use Rattle.std.specs.Str.{chars};
ghost use Rattle.json_doc.specs.declared.doc.Doc as doc;
ghost use Rattle.resp_parser.specs.Kept.{is_counted, only_key, pair_of, unknown_member, unknown_tag};
ghost use Rattle.resp_parser.specs.Kinds.{is_null};

use crate::kinds::is_null;
use crate::values::is_sent;
use json_doc::{Doc, OutOfMemory, Pair, Pairs, Text};
use service_model::Shape;
use std::alloc::Global;

/// The name of a union's one member, where the model doesn't know it.
pub(crate) fn unknown_tag<'v>(shape: &Shape, fields: &'v [Pair<Doc>]) -> Option<&'v Text>
    ensures { option_copied result ≡ unknown_tag is_null shape.now fields.now }
{
    if !shape.is_union {
        return None;
    }
    let tag = only_counted(fields)?;
    if is_sent(shape.members.as_slice(), tag) {
        None
    } else {
        Some(tag)
    }
}

/// The name that is counted, where there is just one.
fn only_counted(fields: &[Pair<Doc>]) -> Option<&Text>
    ensures { option_copied result ≡ only_key (filter (is_counted is_null) fields.now) }
{
    let mut only = None;
    for field in fields {
        if is_counted(field) {
            if only.is_some() {
                return None;
            }
            only = Some(&field.key);
        }
    }
    only
}

/// Whether a union counts an entry.
fn is_counted(field: &Pair<Doc>) -> bool
    ensures { result ≡ is_counted is_null field.now }
{
    !field.key.is("__type") && !is_null(&field.value)
}

/// What tells of a member that the model doesn't know.
pub(crate) fn unknown_member(alloc: Global, tag: &Text) -> Result<Doc, OutOfMemory>
    ensures { IfOk result (λ made. made ≡ unknown_member tag.now) }
{
    let named = object(alloc, "name", Doc::Str(tag.copy(alloc)?))?;
    object(alloc, "SDK_UNKNOWN_MEMBER", named)
}

/// The object of one member.
fn object(alloc: Global, key: &str, value: Doc) -> Result<Doc, OutOfMemory>
    ensures { IfOk result (λ made. made ≡ doc.Fields (pair_of (chars key.now) value ∷ [])) }
{
    let mut made = Pairs::new(alloc);
    made.push_new(Text::from_str(alloc, key)?, value)?;
    Ok(Doc::Fields(made))
}
