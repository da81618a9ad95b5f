//! The names that the conditions of a path see.
ghost use Rattle.std.specs.Prelude.{◌≡◌, IfOk, OnOk};
ghost use Rattle.std.specs.Option.{option_copied};
ghost use Rattle.std.specs.Str.{chars};
ghost use Rattle.endpoint_rules.specs.Scopes.{value_named, found_named, seen_scope, assigned_too};

use json_doc::{Doc, copy};
use rule_sets::Partitions;
use std::alloc::Global;
use texts::{OutOfMemory, Pairs, Text};

/// The partitions, the parameters that have a value, and what the conditions of a path assigned.
#[derive(Drop)]
pub struct Scope<'a> {
    pub partitions: &'a Partitions,
    pub given: &'a Pairs<Doc>,
    pub assigned: Pairs<Doc>,
}

impl Scope<'_> {
    /// What stands under a name. An assigned value hides a parameter.
    pub fn find(&self, name: &str) -> Option<&Doc>
        ensures { option_copied result ≡ found_named (chars name.now) (seen_scope self.now) }
    {
        match self.assigned.get(name) {
            Some(value) => Some(value),
            None => self.given.get(name),
        }
    }

    /// The value under a name: null where there is none.
    pub fn value(&self, alloc: Global, name: &str) -> Result<Doc, OutOfMemory>
        ensures { IfOk result (λ value. value ≡ value_named (chars name.now) (seen_scope self.now)) }
    {
        match self.find(name) {
            Some(value) => copy(alloc, value),
            None => Ok(Doc::Null),
        }
    }

    /// Puts the value of a condition under its name.
    pub fn assign(&mut self, alloc: Global, name: &Text, value: Doc) -> Result<(), OutOfMemory>
        ensures { OnOk result (seen_scope self.new ≡ assigned_too name.now value (seen_scope self.old)) }
    {
        let name = name.copy(alloc)?;
        self.assigned.put(name, value)
    }
}
