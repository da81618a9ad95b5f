//! The partitions of AWS: botocore's `partitions.json`.
ghost use Rattle.std.specs.Prelude.{◌≡◌, IfOk, IsTrue, option_and_then};
ghost use Rattle.std.specs.Option.{option_copied};
ghost use Rattle.std.specs.Str.{chars};
ghost use Rattle.texts.specs.Ascii.{is_ascii_text};
ghost use Rattle.texts.specs.Calls.{Answers};
ghost use Rattle.rule_terms.specs.Seen.{fields_of, keys_at, or_empty};
ghost use Rattle.rule_sets.specs.Faults.{is_memory};
ghost use Rattle.rule_sets.specs.Partitions.{partitions_of, partition_of, outputs_of, outputs_for, first_listing, first_fitting, first_named, lists};

use crate::fault::{RuleFault, bad_at};
use crate::judging_partitions::judge_partitions;
use crate::reading::fields_at;
use json_doc::{Doc, copy};
use rule_terms::{Part, fits, items_at, member, pattern_of, put_text, text_at};
use std::alloc::Global;
use std::marker::Model;
use texts::{List, OutOfMemory, Pairs, Text};

/// The partition of a region that no other has.
const USUAL: &str = "aws";

/// One of the partitions of AWS.
#[derive(Debug, Drop)]
pub struct Partition {
    id: Text,
    pattern: List<Part>,
    /// The regions that it lists.
    regions: List<Text>,
    /// What it says of its endpoints, and its name.
    outputs: Doc,
}

/// The partitions of AWS, which share what their endpoints have.
#[derive(Debug, Drop)]
pub struct Partitions {
    partitions: List<Partition>,
}

impl Model for Partitions {
    ghost use Rattle.std.specs.Prelude.{List as Seq};
    ghost use Rattle.rule_sets.specs.declared.partitions.Partition.{Partition as One};
    ghost use Rattle.rule_sets.specs.contracts.partitions.Partition as one;
    ghost use Rattle.std.specs.Coded.{codes};

    ghost Value = { Seq One };

    ghost coded = { Prim.hlevel (codes, one.the_row.coded) };

    ghost view = { λ partitions. partitions.partitions };
}

impl Partitions {
    /// Reads the partitions from their document. Each needs `id`, `regionRegex` and `outputs`.
    pub fn read(alloc: Global, doc: &Doc) -> Result<Partitions, RuleFault>
        ensures { Answers is_memory (λ partitions. partitions) result (partitions_of doc.now) }
    {
        if let Err(fault) = judge_partitions(alloc, doc) {
            return Err(bad_at(alloc, fault));
        }
        let mut partitions = List::new(alloc);
        for item in items_at(doc, "partitions") {
            partitions.push(read_partition(alloc, item)?)?;
        }
        Ok(Partitions { partitions })
    }

    /// What the partition of a region says, its name among it: of the first that lists the region, else
    /// of the first whose pattern fits, else of the one with the id `aws`, if there is one.
    #[tactic(auto, using(texts::proofs::Texts::chars_ascii))]
    pub fn outputs(&self, alloc: Global, region: &str) -> Result<Option<&Doc>, OutOfMemory>
        ensures { IfOk result (λ outputs. option_copied outputs ≡ outputs_for (chars region.now) self.now) }
    {
        if let Some(partition) = self.listing(region) {
            return Ok(Some(&partition.outputs));
        }
        if let Some(partition) = self.fitting(alloc, region)? {
            return Ok(Some(&partition.outputs));
        }
        match self.named(USUAL) {
            Some(partition) => Ok(Some(&partition.outputs)),
            None => Ok(None),
        }
    }

    fn listing(&self, region: &str) -> Option<&Partition>
        ensures { option_copied result ≡ first_listing (chars region.now) self.now }
    {
        for partition in self.partitions.as_slice() {
            if partition.lists(region) {
                return Some(partition);
            }
        }
        None
    }

    fn fitting(&self, alloc: Global, region: &str) -> Result<Option<&Partition>, OutOfMemory>
        ensures { IfOk result (λ found. option_copied found ≡ first_fitting (chars region.now) self.now) }
    {
        for partition in self.partitions.as_slice() {
            if fits(alloc, partition.pattern.as_slice(), region)? {
                return Ok(Some(partition));
            }
        }
        Ok(None)
    }

    fn named(&self, id: &str) -> Option<&Partition>
        ensures { option_copied result ≡ first_named (chars id.now) self.now }
    {
        for partition in self.partitions.as_slice() {
            if partition.id.is(id) {
                return Some(partition);
            }
        }
        None
    }
}

impl Partition {
    fn lists(&self, region: &str) -> bool
        ensures { result ≡ lists (chars region.now) self.now }
    {
        self.regions.iter().any(|listed| listed.is(region))
    }
}

/// A partition, as judging let it pass.
fn read_partition(alloc: Global, doc: &Doc) -> Result<Partition, OutOfMemory>
    ensures { IfOk result (λ partition. partition ≡ partition_of doc.now) }
{
    let id = text_at(doc, "id");
    let pattern = pattern_of(alloc, text_at(doc, "regionRegex"))?;
    Ok(Partition {
        id: Text::from_str(alloc, id)?,
        pattern: pattern.unwrap_or(List::new(alloc)),
        regions: keys_at(alloc, doc, "regions")?,
        outputs: outputs_of(alloc, doc, id)?,
    })
}

/// What a partition says, and its name.
#[tactic(auto, using(texts::proofs::Texts::chars_ascii))]
fn outputs_of(alloc: Global, doc: &Doc, id: &str) -> Result<Doc, OutOfMemory>
    ensures { IfOk result (λ outputs. outputs ≡ outputs_of (chars id.now) doc.now) }
{
    let mut outputs = copied_fields(alloc, member(doc, "outputs"))?;
    put_text(alloc, &mut outputs, "name", id)?;
    Ok(Doc::Fields(outputs))
}

/// The pairs of an object.
fn copied_fields(alloc: Global, doc: Option<&Doc>) -> Result<Pairs<Doc>, OutOfMemory>
    ensures { IfOk result (λ pairs. pairs ≡ or_empty (option_and_then fields_of (option_copied doc.entry))) }
{
    match doc {
        Some(doc) => match copy(alloc, doc)? {
            Doc::Fields(fields) => Ok(fields),
            _ => Ok(Pairs::new(alloc)),
        },
        None => Ok(Pairs::new(alloc)),
    }
}

/// The keys of the object at a key.
fn keys_at(alloc: Global, doc: &Doc, key: &str) -> Result<List<Text>, OutOfMemory>
    requires { IsTrue (is_ascii_text key.now) }
    ensures { IfOk result (λ keys. keys ≡ keys_at key.now doc.now) }
{
    let mut keys = List::new(alloc);
    for field in fields_at(doc, key) {
        keys.push(field.key.copy(alloc)?)?;
    }
    Ok(keys)
}
