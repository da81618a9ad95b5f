//! The rule set of a service, which gives its endpoints.
ghost use Rattle.texts.specs.Calls.{Answers};
ghost use Rattle.rule_sets.specs.Faults.{is_memory};
ghost use Rattle.rule_sets.specs.Rules.{rules_of, seen_rules};
ghost use Rattle.endpoint_rules.specs.Endpoints.{endpoint_for};
ghost use Rattle.endpoint_rules.specs.Free.{lacks_memory};

use crate::endpoint::{Endpoint, Param};
use crate::fault::EndpointFault;
use crate::resolving::endpoint_for;
use json_doc::Doc;
use rule_sets::{Partitions, RuleFault};
use std::alloc::Global;
use texts::{List, Text};

/// The rules of a service: botocore's `endpoint-rule-set-1.json`.
#[derive(Debug, Drop)]
pub struct RuleSet {
    rules: rule_sets::RuleSet,
}

impl RuleSet {
    /// Reads a rule set from its document, or gives the first bad place, in the order of the document.
    pub fn read(alloc: Global, doc: &Doc) -> Result<RuleSet, RuleFault>
        ensures { Answers is_memory (λ set. seen_rules set.rules) result (rules_of doc.now) }
    {
        match rule_sets::RuleSet::read(alloc, doc) {
            Ok(rules) => Ok(RuleSet { rules }),
            Err(fault) => Err(fault),
        }
    }

    /// The answer of the first leaf, in the order of the document, all of whose conditions hold. The
    /// conditions of a leaf are looked at up to the first that doesn't hold. A value of another kind than
    /// its place needs is a `TypeClash` of the leaf that is looked at, and `NoRule` comes where no leaf
    /// answers. A parameter takes the first value under its name, else the first under its built-in's,
    /// else its default; that one is missing which needs one is answered first.
    pub fn resolve(
        &self,
        alloc: Global,
        partitions: &Partitions,
        params: &List<(Text, Param)>,
    ) -> Result<Endpoint, EndpointFault>
        ensures { Answers lacks_memory (λ endpoint. endpoint) result
            (endpoint_for partitions.now params.now (seen_rules self.now.rules)) }
    {
        endpoint_for(alloc, &self.rules, partitions, params.as_slice())
    }
}
