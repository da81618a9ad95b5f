ghost use Rattle.std.specs.Prelude.{◌≡◌, ◌∷◌, [], IfOk, OnOk, map};
ghost use Rattle.typed_value.specs.declared.typed.Typed.{out-Typed};
ghost use Rattle.typed_value.specs.Inside.{AddsNodes};
ghost use Rattle.typed_value.specs.Tables.{count_of, root_of, parts_in, IsTable};

use crate::Typed;
use crate::node::Node;
use json_doc::{OutOfMemory, Pair};
use std::alloc::Global;
use std::marker::Model;

/// A value as a table of its nodes: itself and each value in it, one before its parts, with the number
/// of nodes below it. A judge goes over it from the front to the end.
#[derive(Drop)]
pub struct Flat<'a> {
    nodes: Vec<Node<'a>>,
}

impl<'a> Model for Flat<'a> {
    ghost use Rattle.typed_value.specs.declared.typed.Typed.{Typed as Content};
    ghost use Rattle.typed_value.specs.contracts.typed.Typed as content;
    ghost use Rattle.std.specs.Coded.{codes};

    ghost Value = { Content };

    ghost coded = { Prim.hlevel (codes, content.the_row.coded) };

    ghost use Rattle.typed_value.specs.Tables.{root_of, IsTable};

    ghost view = { λ flat. root_of flat.nodes.items };

    ghost invariant = { λ flat. IsTable flat.nodes.items };
}

impl<'a> Flat<'a> {
    /// The table of a value.
    pub fn of(alloc: Global, value: &'a Typed) -> Result<Flat<'a>, OutOfMemory>
        ensures { IfOk result (λ flat. flat ≡ value.now) }
    {
        let mut nodes = Vec::new(alloc);
        lay(&mut nodes, value)?;
        Ok(Flat { nodes })
    }

    /// How many nodes the value has: each scalar, list, structure, map and document is one.
    pub fn count(&self) -> u64
        ensures { result ≡ count_of self.now }
    {
        self.nodes.len() as u64
    }

    pub(crate) fn nodes(&self) -> &[Node<'a>]
        ensures table { IsTable result.now }
        ensures root { root_of result.now ≡ self.now }
    {
        self.nodes.as_slice()
    }
}

/// Puts the nodes of a value behind those that are there.
#[cycle(laying)]
fn lay<'a>(nodes: &mut Vec<Node<'a>>, value: &'a Typed) -> Result<(), OutOfMemory>
    ensures { OnOk result (AddsNodes nodes.old.items (value.now ∷ []) nodes.new.items) }
{
    let at = nodes.len();
    nodes.push(Node { value, below: 0 })?;
    lay_parts(nodes, value)?;
    let below = nodes.len() - at - 1;
    nodes[at] = Node { value, below };
    Ok(())
}

#[cycle(laying)]
fn lay_parts<'a>(nodes: &mut Vec<Node<'a>>, value: &'a Typed) -> Result<(), OutOfMemory>
    ensures { OnOk result (AddsNodes nodes.old.items (parts_in (out-Typed value.now)) nodes.new.items) }
{
    match value {
        Typed::Items(items) => lay_items(nodes, items.as_slice()),
        Typed::Fields(fields) => lay_fields(nodes, fields.as_slice()),
        _ => Ok(()),
    }
}

#[cycle(laying)]
fn lay_items<'a>(nodes: &mut Vec<Node<'a>>, items: &'a [Typed]) -> Result<(), OutOfMemory>
    ensures { OnOk result (AddsNodes nodes.old.items items.now nodes.new.items) }
{
    for item in items {
        lay(nodes, item)?;
    }
    Ok(())
}

#[cycle(laying)]
fn lay_fields<'a>(nodes: &mut Vec<Node<'a>>, fields: &'a [Pair<Typed>]) -> Result<(), OutOfMemory>
    ensures { OnOk result (AddsNodes nodes.old.items (map (λ p. p.value) fields.now) nodes.new.items) }
{
    for field in fields {
        lay(nodes, &field.value)?;
    }
    Ok(())
}
