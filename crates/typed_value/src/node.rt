ghost use Rattle.std.specs.Prelude.{◌≤◌, ◌+◌, ◌∷◌, List as Seq, length, drop};
ghost use Rattle.typed_value.specs.declared.typed.Typed.{Typed as Value};
ghost use Rattle.typed_value.specs.Inside.{IsTableOf};
ghost use Rattle.typed_value.specs.Tables.{AreNodes};

use crate::Typed;

/// A value in a table, and how many nodes are below it.
#[derive(Clone, Copy, Debug)]
pub(crate) struct Node<'a> {
    pub(crate) value: &'a Typed,
    pub(crate) below: usize,
}

/// The nodes of the value whose node stands at a place. Behind them stand those of the next value.
pub(crate) fn table_at<'s, 'a>(nodes: &'s [Node<'a>], start: usize) -> &'s [Node<'a>]
    requires { start ≤ length nodes.now }
    ensures own { (v : Value) (vs : Seq Value) → AreNodes (drop start nodes.now) (v ∷ vs) → IsTableOf result.now v }
    ensures others { (v : Value) (vs : Seq Value) → AreNodes (drop start nodes.now) (v ∷ vs)
        → AreNodes (drop (start + length result.now) nodes.now) vs }
    ensures within { start + length result.now ≤ length nodes.now }
{
    let rest = &nodes[start..];
    let size = match rest.first() {
        Some(node) if node.below < rest.len() => node.below + 1,
        _ => 0,
    };
    &rest[..size]
}
