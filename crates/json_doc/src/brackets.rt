ghost use Rattle.std.specs.Prelude.{◌≡◌, [], ◌∷◌, OnOk, MatchOption, reverse};
ghost use Rattle.std.specs.Prelude.{List};

use crate::OutOfMemory;
use std::alloc::Global;
use std::marker::Model;

/// What a bracket opens.
#[derive(Clone, Copy, Debug, PartialEq, Eq)]
pub enum Bracket {
    Array,
    Object,
}

/// The brackets that are open. Contracts see them from the innermost on.
#[derive(Debug, Drop)]
pub struct Brackets {
    items: Vec<Bracket>,
}

impl Model for Brackets {
    ghost use Rattle.std.specs.Prelude.{List, reverse};
    ghost use Rattle.json_doc.specs.declared.brackets.Bracket.{Bracket};

    ghost Value = { List Bracket };

    ghost view = { λ brackets. reverse brackets.items.items };
}

impl Brackets {
    /// No bracket; this takes no memory.
    pub fn new(alloc: Global) -> Brackets
        ensures { result ≡ [] }
    {
        Brackets {
            items: Vec::new(alloc),
        }
    }

    /// Opens a bracket inside the others.
    pub fn push(&mut self, bracket: Bracket) -> Result<(), OutOfMemory>
        ensures { OnOk result (self.new ≡ bracket ∷ self.old) }
    {
        self.items.push(bracket)?;
        Ok(())
    }

    /// Takes the innermost bracket away.
    pub fn pop(&mut self) -> Option<Bracket>
        ensures { MatchOption result ((self.old ≡ []) × (self.new ≡ [])) (λ b. self.old ≡ b ∷ self.new) }
    {
        self.items.pop()
    }
}
