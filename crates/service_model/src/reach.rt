//! Which shapes lead to a shape of some sort: by members, items, keys and values.
ghost use Rattle.std.specs.Prelude.{◌≡◌, ◌<◌, ℕ, ◌&&◌, ◌||◌, ◌↔◌, IfOk, OnOk, IfSome, IsTrue, nat_eq, length, slice_index_or, false, [], option_to_list};
ghost use Rattle.std.specs.List.{All, list_any};
ghost use Rattle.service_model.specs.declared.shape.ShapeId.{ShapeId as Id};
ghost use Rattle.service_model.specs.Reach.{LeadsTo, HasPartsBelow, has_part, uses, is_listed};

use crate::{Member, Shape, ShapeId};
use std::alloc::{AllocError, Global};

/// Whether each shape leads to one of those that are marked. Each shape is looked at once, from
/// the marked ones back to those that have them as parts.
pub fn leading_to(alloc: Global, shapes: &[Shape], marked: &[bool]) -> Result<Vec<bool>, AllocError>
    requires parts { All (HasPartsBelow (length shapes.now)) shapes.now }
    requires marks { length marked.now ≡ length shapes.now }
    ensures { IfOk result (λ leads. (from : Id) → IsTrue (slice_index_or leads.items from.0 false) ↔ LeadsTo shapes.now marked.now from) }
{
    let mut leads = vec![in alloc; false; shapes.len()]?;
    let mut work = places(alloc, marked)?;
    if work.is_empty() {
        return Ok(leads);
    }
    let users = users(alloc, shapes)?;
    while let Some(at) = work.pop() {
        if leads[at] {
            continue;
        }
        leads[at] = true;
        work.extend_from_slice(users[at].as_slice())?;
    }
    Ok(leads)
}

/// The places of the marks.
fn places(alloc: Global, marked: &[bool]) -> Result<Vec<usize>, AllocError>
    ensures { IfOk result (λ places. (n : ℕ) → list_any (nat_eq n) places.items ≡ slice_index_or marked.now n false) }
{
    let mut places = Vec::new(alloc);
    for (at, is_marked) in marked.iter().enumerate() {
        if *is_marked {
            places.push(at)?;
        }
    }
    Ok(places)
}

/// For each shape those that have it as a part.
fn users(alloc: Global, shapes: &[Shape]) -> Result<Vec<Vec<usize>>, AllocError>
    requires { All (HasPartsBelow (length shapes.now)) shapes.now }
    ensures size { IfOk result (λ users. length users.items ≡ length shapes.now) }
    ensures listed { IfOk result (λ users. (part user : ℕ) → is_listed users.items part user ≡ uses shapes.now user part) }
{
    let mut users = empty_lists(alloc, shapes.len())?;
    for (at, shape) in shapes.iter().enumerate() {
        add_user(users.as_mut_slice(), at, shape)?;
    }
    Ok(users)
}

/// So many empty lists.
fn empty_lists(alloc: Global, count: usize) -> Result<Vec<Vec<usize>>, AllocError>
    ensures size { IfOk result (λ lists. length lists.items ≡ count) }
    ensures empty { IfOk result (λ lists. All (λ list. list.items ≡ []) lists.items) }
{
    let mut lists = Vec::with_capacity(alloc, count)?;
    for _ in 0..count {
        lists.push(Vec::new(alloc))?;
    }
    Ok(lists)
}

/// Notes a shape at each of its parts.
fn add_user(users: &mut [Vec<usize>], at: usize, shape: &Shape) -> Result<(), AllocError>
    requires { HasPartsBelow (length users.old) shape.now }
    ensures size { length users.new ≡ length users.old }
    ensures listed { OnOk result ((part user : ℕ) → is_listed users.new part user
        ≡ (is_listed users.old part user || nat_eq user at && has_part part shape.now)) }
{
    add_to_members(users, at, shape.members.as_slice())?;
    add_to_part(users, at, shape.item)?;
    add_to_part(users, at, shape.key)?;
    Ok(())
}

fn add_to_members(users: &mut [Vec<usize>], at: usize, members: &[Member]) -> Result<(), AllocError>
    requires { All (λ m. m.shape.0 < length users.old) members.now }
    ensures size { length users.new ≡ length users.old }
    ensures listed { OnOk result ((part user : ℕ) → is_listed users.new part user
        ≡ (is_listed users.old part user || nat_eq user at && list_any (λ m. nat_eq part m.shape.0) members.now)) }
{
    for member in members {
        add(users, at, member.shape)?;
    }
    Ok(())
}

fn add_to_part(users: &mut [Vec<usize>], at: usize, id: Option<ShapeId>) -> Result<(), AllocError>
    requires { IfSome id (λ known. known.0 < length users.old) }
    ensures size { length users.new ≡ length users.old }
    ensures listed { OnOk result ((part user : ℕ) → is_listed users.new part user
        ≡ (is_listed users.old part user || nat_eq user at && list_any (λ known. nat_eq part known.0) (option_to_list id))) }
{
    match id {
        Some(id) => add(users, at, id),
        None => Ok(()),
    }
}

/// Notes a shape at one of its parts.
fn add(users: &mut [Vec<usize>], at: usize, id: ShapeId) -> Result<(), AllocError>
    requires { id.0 < length users.old }
    ensures size { length users.new ≡ length users.old }
    ensures listed { OnOk result ((part user : ℕ) → is_listed users.new part user
        ≡ (is_listed users.old part user || nat_eq user at && nat_eq part id.0)) }
{
    users[id.0 as usize].push(at)?;
    Ok(())
}
