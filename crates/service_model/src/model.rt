ghost use Rattle.std.specs.Prelude.{◌≡◌, ◌<◌, ◌^◌, length, map, slice_get, Some, None, codes, IfOk, IfSome, MatchResult};
ghost use Rattle.std.specs.List.{All};
ghost use Rattle.std.specs.Option.{option_copied};
ghost use Rattle.std.specs.Str.{chars};
ghost use Rattle.texts.specs.Calls.{Answers};
ghost use Rattle.model_files.specs.Faults.{inside, is_memory};
ghost use Rattle.texts.specs.Keys.{keys, IsDistinct};
ghost use Rattle.service_model.specs.Kept.{HasOwnNames, TellsWires, IsShape, IsOperation};
ghost use Rattle.service_model.specs.Metadata.{metadata_of};
ghost use Rattle.service_model.specs.Models.{parts_of, entries_of, operation_named, IsRead};

use crate::admission::admit_operations;
use crate::metadata::{Described, read_metadata};
use crate::numbering::number_shapes;
use crate::operations::{Row, Service, read_operations};
use crate::shapes::read_shapes;
use crate::{Metadata, Operation, Refusal, Shape, ShapeId};
use json_doc::{Doc, List, Pairs, Text};
use model_files::{ModelFault, inside, object, object_at, wrong};
use std::alloc::Global;

/// How many shapes a model may have.
const MOST_SHAPES: usize = 1_000_000;

/// A service's model: botocore's `service-2.json` with every reference resolved.
#[derive(Debug, Drop)]
pub struct Model {
    table: Table,
}

/// What a model says.
#[derive(Debug, Drop)]
pub struct Table {
    pub metadata: Metadata,
    pub shapes: List<Shape>,
    pub operations: List<Operation>,
}

impl std::marker::Model for Model {
    ghost use Rattle.service_model.specs.declared.model.Table.{Table as Content};
    ghost use Rattle.service_model.specs.contracts.model.Table as content;
    ghost use Rattle.std.specs.Coded.{codes};

    ghost Value = { Content };

    ghost coded = { Prim.hlevel (codes, content.the_row.coded) };

    ghost view = { λ model. model.table };

    ghost use Rattle.service_model.specs.Models.{IsSound};

    ghost invariant = { λ model. IsSound model.table };
}

impl Model {
    /// Reads a model from its document.
    pub fn read(alloc: Global, doc: &Doc) -> Result<Model, ModelFault>
        ensures { IsRead doc.now result }
    {
        let parts = parts_of(alloc, doc)?;
        let described = read_described(alloc, parts.metadata)?;
        let (rows, shapes) = read_entries(alloc, &parts, described.signs_by_v4)?;
        let metadata = described.metadata;
        let operations = admit_operations(alloc, &metadata, shapes.as_slice(), rows)?;
        Ok(Model {
            table: Table {
                metadata,
                shapes,
                operations,
            },
        })
    }

    /// What the model says of the whole service.
    pub fn metadata(&self) -> &Metadata
        ensures { result.now ≡ self.now.metadata }
    {
        &self.table.metadata
    }

    /// How many shapes the model has.
    pub fn shape_count(&self) -> u32
        ensures { result ≡ length self.now.shapes }
    {
        self.table.shapes.len() as u32
    }

    /// The shape with a number that is below the count.
    pub fn shape(&self, id: ShapeId) -> &Shape
        requires { id.0 < length self.now.shapes }
        ensures at { slice_get self.now.shapes id.0 ≡ Some result.now }
        ensures kept { IsShape self.now.shapes result.now }
        ensures members { HasOwnNames result.now.members }
        ensures wires { TellsWires result.now }
        ensures names { IsDistinct (map (λ shape. shape.name) self.now.shapes) }
    {
        &self.table.shapes.as_slice()[id.0 as usize]
    }

    /// The operation with a command name.
    pub fn operation(&self, command: &Text) -> Option<&Operation>
        ensures named { option_copied result ≡ operation_named command.now self.now.operations }
        ensures kept { IfSome result (λ op. IsOperation self.now.shapes op.now) }
        ensures commands { IsDistinct (map (λ op. op.command) self.now.operations) }
    {
        self.find(command.as_str())
    }

    fn find(&self, command: &str) -> Option<&Operation>
        ensures named { option_copied result ≡ operation_named (chars command.now) self.now.operations }
        ensures kept { IfSome result (λ op. IsOperation self.now.shapes op.now) }
        ensures commands { IsDistinct (map (λ op. op.command) self.now.operations) }
    {
        for operation in self.table.operations.as_slice() {
            if operation.command.is(command) {
                return Some(operation);
            }
        }
        None
    }

    /// Whether an operation of this model can be called.
    pub fn admit<'a>(&self, op: &'a Operation) -> Result<(), &'a Refusal>
        ensures { MatchResult result (λ _. op.now.refusal ≡ None) (λ refusal. op.now.refusal ≡ Some refusal.now) }
    {
        match &op.refusal {
            Some(refusal) => Err(refusal),
            None => Ok(()),
        }
    }
}

/// The three parts of a model's document.
#[derive(Clone, Copy)]
struct Parts<'a> {
    metadata: &'a Pairs<Doc>,
    operations: &'a Pairs<Doc>,
    shapes: &'a Pairs<Doc>,
}

#[tactic(auto, unfolding(crate::specs::Models::parts_of))]
fn parts_of(alloc: Global, doc: &Doc) -> Result<Parts<'_>, ModelFault>
    ensures parts { Answers is_memory (λ parts. (parts.metadata.now, parts.operations.now, parts.shapes.now)) result (parts_of doc.now) }
    ensures distinct { IfOk result (λ parts. IsDistinct (keys parts.shapes.now)) }
{
    let fields = object(doc)?;
    let metadata = object_at(alloc, fields, "metadata")?;
    let operations = object_at(alloc, fields, "operations")?;
    let shapes = object_at(alloc, fields, "shapes")?;
    if shapes.as_slice().len() > MOST_SHAPES {
        return Err(wrong(alloc, "shapes"));
    }
    Ok(Parts {
        metadata,
        operations,
        shapes,
    })
}

#[tactic(auto, using(model_files::proofs::Each::gives_inside))]
fn read_described(alloc: Global, fields: &Pairs<Doc>) -> Result<Described, ModelFault>
    ensures { Answers is_memory (λ described. described) result (inside (codes "metadata") (metadata_of fields.now)) }
{
    inside(alloc, "metadata", read_metadata(alloc, fields))
}

/// Reads operations, then shapes.
#[tactic(auto, using(model_files::proofs::Each::gives_inside), unfolding(crate::specs::Models::entries_of))]
fn read_entries(
    alloc: Global,
    parts: &Parts,
    signs_by_v4: bool,
) -> Result<(Vec<Row>, List<Shape>), ModelFault>
    requires { length parts.now.shapes.now < 2 ^ 32 }
    ensures value { Answers is_memory (λ entries. (entries.0.items, entries.1)) result (entries_of signs_by_v4 parts.now.operations.now parts.now.shapes.now) }
    ensures distinct { IfOk result (λ entries. All (λ shape. HasOwnNames shape.members) entries.1) }
{
    let names = number_shapes(alloc, parts.shapes)?;
    let service = Service {
        names: &names,
        shapes: parts.shapes,
        signs_by_v4,
    };
    let operations = read_operations(alloc, &service, parts.operations);
    let rows = inside(alloc, "operations", operations)?;
    let shapes = inside(alloc, "shapes", read_shapes(alloc, &names, parts.shapes))?;
    Ok((rows, shapes))
}
