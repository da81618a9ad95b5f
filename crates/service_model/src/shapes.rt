//! The shapes of a model.
ghost use Rattle.std.specs.Prelude.{◌≡◌, ◌<◌, ◌^◌, ℕ, List as Seq, IsTrue, IfOk, bytes_eq, length};
ghost use Rattle.std.specs.List.{All, list_all, list_any};
ghost use Rattle.texts.specs.Ascii.{is_ascii_text};
ghost use Rattle.texts.specs.Calls.{Answers};
ghost use Rattle.model_files.specs.Faults.{each_from, is_memory};
ghost use Rattle.service_model.specs.Kept.{HasOwnNames};
ghost use Rattle.service_model.specs.Shapes.{have_own_wires, kind_of_shape, names_member, names_in, name_among, member_list, required_of, payload_of, structure_of, structure_if, part_at, key_at, key_if, item_if, least_of, shape_of, shapes_of};

use crate::choices::kind_named;
use crate::members::{read_members, read_time};
use crate::numbering::{Names, reference_in, string_in};
use crate::{Kind, Member, Shape, ShapeId};
use indexmap::IndexSet;
use json_doc::{Doc, List, OutOfMemory, Pair, Pairs, Text};
use model_files::{
    ModelFault, flag_at, inside, items, maybe_text, missing_below, move_to, object, object_at,
    text, text_at, wrong, wrong_kind,
};
use std::alloc::Global;

/// Reads the shapes in their order.
pub fn read_shapes(
    alloc: Global,
    names: &Names,
    pairs: &Pairs<Doc>,
) -> Result<List<Shape>, ModelFault>
    requires { length names.now.entries < 2 ^ 32 }
    ensures value { Answers is_memory (λ x. x) result (shapes_of names.now.entries pairs.now) }
    ensures distinct { IfOk result (λ shapes. All (λ shape. HasOwnNames shape.members) shapes) }
{
    let mut shapes = Vec::with_capacity(alloc, pairs.len())?;
    for pair in pairs.as_slice() {
        let shape = inside(alloc, pair.key.as_str(), read_shape(alloc, names, pair))?;
        shapes.push(shape)?;
    }
    Ok(List::from_vec(shapes))
}

#[tactic(auto, unfolding(crate::specs::Shapes::shape_of))]
fn read_shape(alloc: Global, names: &Names, pair: &Pair<Doc>) -> Result<Shape, ModelFault>
    requires { length names.now.entries < 2 ^ 32 }
    ensures value { Answers is_memory (λ x. x) result (shape_of names.now.entries pair.now) }
    ensures distinct { IfOk result (λ shape. HasOwnNames shape.members) }
{
    let fields = object(&pair.value)?;
    let kind = read_kind(alloc, fields)?;
    let structure = read_structure_of(alloc, names, fields, kind)?;
    let key = read_key_of(alloc, names, fields, kind)?;
    let item = read_item_of(alloc, names, fields, kind)?;
    let time = read_time(alloc, fields)?;
    let has_own_wires = have_own_wires(alloc, structure.members.as_slice())?;
    Ok(Shape {
        name: pair.key.copy(alloc)?,
        kind,
        members: structure.members,
        has_own_wires,
        required: structure.required,
        payload: structure.payload,
        min: least(fields),
        item,
        key,
        is_union: structure.is_union,
        document: structure.document,
        exception: structure.exception,
        events: structure.events,
        time,
    })
}

/// Whether no two members are sent under one name. No two have one name, so it is told at once
/// where each is sent under its own.
fn have_own_wires(alloc: Global, members: &[Member]) -> Result<bool, OutOfMemory>
    requires { HasOwnNames members.now }
    ensures { IfOk result (λ own. own ≡ have_own_wires members.now) }
{
    if keep_names(members) {
        return Ok(true);
    }
    are_wires_new(alloc, members)
}

/// Whether each member is sent under its own name.
fn keep_names(members: &[Member]) -> bool
    ensures { result ≡ list_all (λ m. bytes_eq m.wire m.name) members.now }
{
    members.iter().all(|member| member.wire == member.name)
}

/// Whether no name under which a member is sent is that of an earlier one.
fn are_wires_new(alloc: Global, members: &[Member]) -> Result<bool, OutOfMemory>
    ensures { IfOk result (λ own. own ≡ have_own_wires members.now) }
{
    let mut wires = IndexSet::with_capacity(alloc, members.len())?;
    for member in members {
        if wires.contains(&member.wire) {
            return Ok(false);
        }
        wires.insert(member.wire.copy(alloc)?)?;
    }
    Ok(true)
}

#[tactic(auto, unfolding(crate::specs::Shapes::kind_of_shape))]
fn read_kind(alloc: Global, fields: &Pairs<Doc>) -> Result<Kind, ModelFault>
    ensures { Answers is_memory (λ x. x) result (kind_of_shape fields.now) }
{
    let name = text_at(alloc, fields, "type")?;
    match kind_named(name) {
        Some(kind) => Ok(kind),
        None => Err(wrong(alloc, "type")),
    }
}

/// What only structures have; a shape of another kind has nothing of it.
#[derive(Drop)]
pub struct Structure {
    members: List<Member>,
    required: List<Text>,
    payload: Option<Text>,
    is_union: bool,
    document: bool,
    exception: bool,
    events: bool,
}

#[tactic(auto, unfolding(crate::specs::Shapes::structure_if))]
fn read_structure_of(
    alloc: Global,
    names: &Names,
    fields: &Pairs<Doc>,
    kind: Kind,
) -> Result<Structure, ModelFault>
    requires { length names.now.entries < 2 ^ 32 }
    ensures value { Answers is_memory (λ x. x) result (structure_if kind names.now.entries fields.now) }
    ensures distinct { IfOk result (λ structure. HasOwnNames structure.members) }
{
    match kind {
        Kind::Structure => read_structure(alloc, names, fields),
        _ => Ok(Structure {
            members: List::new(alloc),
            required: List::new(alloc),
            payload: None,
            is_union: false,
            document: false,
            exception: false,
            events: false,
        }),
    }
}

#[tactic(auto, using(model_files::proofs::Each::gives_inside), unfolding(crate::specs::Shapes::structure_of))]
fn read_structure(
    alloc: Global,
    names: &Names,
    fields: &Pairs<Doc>,
) -> Result<Structure, ModelFault>
    requires { length names.now.entries < 2 ^ 32 }
    ensures value { Answers is_memory (λ x. x) result (structure_of names.now.entries fields.now) }
    ensures distinct { IfOk result (λ structure. HasOwnNames structure.members) }
{
    let pairs = object_at(alloc, fields, "members")?;
    let members = inside(alloc, "members", read_members(alloc, names, pairs))?;
    let required = read_required(alloc, fields, &members)?;
    let payload = read_payload(alloc, fields, &members)?;
    let is_union = flag_at(alloc, fields, "union")?;
    let document = flag_at(alloc, fields, "document")?;
    let exception = flag_at(alloc, fields, "exception")?;
    let events = flag_at(alloc, fields, "eventstream")?;
    Ok(Structure {
        members,
        required,
        payload,
        is_union,
        document,
        exception,
        events,
    })
}

/// The names of the members that a value must have; each names a member.
#[tactic(auto, using(model_files::proofs::Each::gives_inside), unfolding(crate::specs::Shapes::required_of))]
fn read_required(
    alloc: Global,
    fields: &Pairs<Doc>,
    members: &List<Member>,
) -> Result<List<Text>, ModelFault>
    ensures { Answers is_memory (λ x. x) result (required_of members.now fields.now) }
{
    let Some(doc) = fields.get("required") else {
        return Ok(List::new(alloc));
    };
    inside(alloc, "required", member_list(alloc, doc, members))
}

/// A list of names of members.
#[tactic(auto, unfolding(crate::specs::Shapes::member_list))]
fn member_list(alloc: Global, doc: &Doc, members: &List<Member>) -> Result<List<Text>, ModelFault>
    ensures { Answers is_memory (λ x. x) result (member_list members.now doc.now) }
{
    let items = items(doc)?;
    let names = member_names(alloc, members.as_slice())?;
    names_listed(alloc, items.as_slice(), &names)
}

/// The texts of a list, each of which is one of the names.
fn names_listed(
    alloc: Global,
    items: &[Doc],
    names: &IndexSet<Text>,
) -> Result<List<Text>, ModelFault>
    ensures { Answers is_memory (λ x. x) result (each_from (name_among names.now.keys) 0 items.now) }
{
    let mut listed = List::new(alloc);
    for (at, item) in items.iter().enumerate() {
        match name_among(alloc, item, names) {
            Ok(name) => listed.push(name.copy(alloc)?)?,
            Err(fault) => return Err(move_to(alloc, at, fault)),
        }
    }
    Ok(listed)
}

/// A text that is one of the names.
#[tactic(auto, unfolding(crate::specs::Shapes::name_among))]
fn name_among<'a>(
    alloc: Global,
    doc: &'a Doc,
    names: &IndexSet<Text>,
) -> Result<&'a Text, ModelFault>
    ensures { Answers is_memory (λ name. name.now) result (name_among names.now.keys doc.now) }
{
    let name = text(doc)?;
    if names.contains(name) {
        Ok(name)
    } else {
        Err(wrong_kind())
    }
}

/// The names of members, to be looked up.
fn member_names(alloc: Global, members: &[Member]) -> Result<IndexSet<Text>, OutOfMemory>
    ensures { IfOk result (λ names. (name : Seq ℕ) →
        list_any (bytes_eq name) names.keys ≡ list_any (bytes_eq name) (names_in members.now)) }
{
    let mut names = IndexSet::with_capacity(alloc, members.len())?;
    for member in members {
        names.insert(member.name.copy(alloc)?)?;
    }
    Ok(names)
}

/// The name of the member that is the whole body.
#[tactic(auto, unfolding(crate::specs::Shapes::payload_of))]
fn read_payload(
    alloc: Global,
    fields: &Pairs<Doc>,
    members: &List<Member>,
) -> Result<Option<Text>, ModelFault>
    ensures { Answers is_memory (λ x. x) result (payload_of members.now fields.now) }
{
    let Some(name) = maybe_text(alloc, fields, "payload")? else {
        return Ok(None);
    };
    if has_member(members.as_slice(), name) {
        Ok(Some(name.copy(alloc)?))
    } else {
        Err(wrong(alloc, "payload"))
    }
}

/// Whether a member has this name.
fn has_member(members: &[Member], name: &Text) -> bool
    ensures { result ≡ names_member members.now name.now }
{
    for member in members {
        if member.name == *name {
            return true;
        }
    }
    false
}

/// What a list holds, or what stands at the keys of a map.
#[tactic(auto, unfolding(crate::specs::Shapes::item_if))]
fn read_item_of(
    alloc: Global,
    names: &Names,
    fields: &Pairs<Doc>,
    kind: Kind,
) -> Result<Option<ShapeId>, ModelFault>
    requires { length names.now.entries < 2 ^ 32 }
    ensures { Answers is_memory (λ x. x) result (item_if kind names.now.entries fields.now) }
{
    match kind {
        Kind::List => Ok(Some(read_part(alloc, names, fields, "member")?)),
        Kind::Map => Ok(Some(read_part(alloc, names, fields, "value")?)),
        _ => Ok(None),
    }
}

/// What the keys of a map are.
#[tactic(auto, unfolding(crate::specs::Shapes::key_if))]
fn read_key_of(
    alloc: Global,
    names: &Names,
    fields: &Pairs<Doc>,
    kind: Kind,
) -> Result<Option<ShapeId>, ModelFault>
    requires { length names.now.entries < 2 ^ 32 }
    ensures { Answers is_memory (λ x. x) result (key_if kind names.now.entries fields.now) }
{
    match kind {
        Kind::Map => Ok(Some(read_key(alloc, names, fields)?)),
        _ => Ok(None),
    }
}

#[tactic(auto, using(model_files::proofs::Each::gives_inside), unfolding(crate::specs::Shapes::part_at))]
fn read_part(
    alloc: Global,
    names: &Names,
    fields: &Pairs<Doc>,
    key: &str,
) -> Result<ShapeId, ModelFault>
    requires few { length names.now.entries < 2 ^ 32 }
    requires ascii { IsTrue (is_ascii_text key.now) }
    ensures { Answers is_memory (λ x. x) result (part_at names.now.entries key.now fields.now) }
{
    let Some(doc) = fields.get(key) else {
        return Err(missing_below(alloc, key, "shape"));
    };
    inside(alloc, key, reference_in(alloc, names, doc))
}

/// Keys of maps are strings.
#[tactic(auto, using(model_files::proofs::Each::gives_inside), unfolding(crate::specs::Shapes::key_at))]
fn read_key(alloc: Global, names: &Names, fields: &Pairs<Doc>) -> Result<ShapeId, ModelFault>
    requires { length names.now.entries < 2 ^ 32 }
    ensures { Answers is_memory (λ x. x) result (key_at names.now.entries fields.now) }
{
    let Some(doc) = fields.get("key") else {
        return Err(missing_below(alloc, "key", "shape"));
    };
    inside(alloc, "key", string_in(alloc, names, doc))
}

/// The least length or value: a whole number in 64 bits, else it is ignored.
#[tactic(auto, unfolding(crate::specs::Shapes::least_of))]
fn least(fields: &Pairs<Doc>) -> Option<i64>
    ensures { result ≡ least_of fields.now }
{
    match fields.get("min") {
        Some(Doc::Number(number)) => number.whole(),
        _ => None,
    }
}
