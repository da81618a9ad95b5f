ghost use Rattle.std.specs.Prelude.{◌≡◌, [], ◌∷◌, length, IfOk, MatchOption};

use crate::begun::Group;
use std::alloc::Global;
use std::marker::Model;
use texts::OutOfMemory;

/// What is open around the innermost, which contracts see as a list from the inside.
#[derive(Drop)]
pub struct Stack {
    items: Vec<Group>,
}

impl Model for Stack {
    ghost use Rattle.std.specs.Prelude.{List as Seq, reverse};
    ghost use Rattle.shorthand.specs.declared.begun.Group.{Group};
    ghost use Rattle.shorthand.specs.contracts.short.Short as short;
    ghost use Rattle.std.specs.Coded.{codes};

    ghost Value = { Seq Group };

    ghost coded = { Prim.hlevel (codes, short.the_row.coded) };

    ghost view = { λ stack. reverse stack.items.items };
}

impl Stack {
    /// Nothing is open, which takes no memory.
    pub fn new(alloc: Global) -> Stack
        ensures { result ≡ [] }
    {
        Stack {
            items: Vec::new(alloc),
        }
    }

    pub fn len(&self) -> usize
        ensures { result ≡ length self.now }
    {
        self.items.len()
    }

    pub fn with(self, group: Group) -> Result<Stack, OutOfMemory>
        ensures { IfOk result (λ more. more ≡ group ∷ self) }
    {
        let mut items = self.items;
        items.push(group)?;
        Ok(Stack { items })
    }

    /// The innermost, and what is around it.
    pub fn pop(self) -> Option<(Group, Stack)>
        ensures { MatchOption result (self ≡ []) (λ x. self ≡ x.0 ∷ x.1) }
    {
        let mut items = self.items;
        let group = items.pop()?;
        Some((group, Stack { items }))
    }
}
