//! The names that stand at a place of a rule set.
ghost use Rattle.std.specs.Prelude.{◌≡◌, ◌≤◌, IfOk, OnOk, length, take};
ghost use Rattle.std.specs.Option.{option_copied};
ghost use Rattle.std.specs.Str.{chars};
ghost use Rattle.rule_sets.specs.Names.{is_known, with_condition, parameter_names};

use json_doc::Doc;
use rule_terms::{copied_text, member};
use std::alloc::Global;
use std::marker::Model;
use texts::{OutOfMemory, Text};

/// The parameters, and behind them the names that conditions on the path assign.
#[derive(Drop)]
pub struct Names {
    names: Vec<Text>,
}

impl Model for Names {
    ghost use Rattle.std.specs.Prelude.{List as Seq, ℕ};

    ghost Value = { Seq (Seq ℕ) };

    ghost view = { λ names. names.names.items };
}

impl Names {
    /// The names of parameters.
    pub fn of_parameters(alloc: Global, parameters: Option<&Doc>) -> Result<Names, OutOfMemory>
        ensures { IfOk result (λ names. names ≡ parameter_names (option_copied parameters.entry)) }
    {
        let mut names = Vec::new(alloc);
        let Some(Doc::Fields(fields)) = parameters else {
            return Ok(Names { names });
        };
        for field in fields.as_slice() {
            names.push(field.key.copy(alloc)?)?;
        }
        Ok(Names { names })
    }

    pub fn len(&self) -> usize
        ensures { result ≡ length self.now }
    {
        self.names.len()
    }

    /// Puts the name that a condition assigns, if it assigns one, behind the others.
    pub fn add(&mut self, alloc: Global, condition: &Doc) -> Result<(), OutOfMemory>
        ensures { OnOk result (self.new ≡ with_condition condition.now self.old) }
    {
        if let Some(name) = copied_text(alloc, member(condition, "assign"))? {
            self.names.push(name)?;
        }
        Ok(())
    }

    /// Leaves so many of the first names.
    pub fn leave(&mut self, count: usize)
        requires { count ≤ length self.old }
        ensures { self.new ≡ take count self.old }
    {
        self.names.truncate(count);
    }

    /// Whether a name is one of these.
    pub fn knows(&self, name: &str) -> bool
        ensures { result ≡ is_known (chars name.now) self.now }
    {
        self.names.iter().any(|known| known.is(name))
    }
}
