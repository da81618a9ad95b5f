//! What the options of an operation are.
ghost use Rattle.std.specs.Prelude.{◌≡◌, ◌&&◌, not, ◌++◌, map, IfOk, bytes_eq, slice_get, ℕ, List as Seq, option_to_list};
ghost use Rattle.std.specs.List.{list_any, enumerate_from, All};
ghost use Rattle.std.specs.Option.{option_copied};
ghost use Rattle.service_model.specs.Arguments.{kind_of};
ghost use Rattle.service_model.specs.Kept.{IsMember, IsOperation, IsWithin};
ghost use Rattle.arg_table.specs.Tables.{takes_of, paged_by, argument_of, paging_of};

use crate::arg_name;
use indexmap::IndexSet;
use service_model::{Kind, Member, Model, Operation, PagerRow, Shape};
use std::alloc::Global;
use texts::{List, OutOfMemory, Text};

/// What an argument takes.
#[derive(Clone, Copy, Debug, PartialEq, Eq)]
pub enum Takes {
    /// It is a flag, which has a `no-` form too.
    NoValue,
    OneValue,
    AnyNumber,
}

/// The argument of a member of an operation's input.
#[derive(Debug, Drop)]
pub struct Argument {
    /// The member's place in the input.
    pub member: u32,
    pub name: Text,
    pub takes: Takes,
    /// Whether the input requires it, and it gets no identifier by itself.
    pub is_needed: bool,
    /// Whether it takes a token or the length of a page.
    pub is_paged: bool,
}

/// Which options for pages an operation has.
#[derive(Clone, Copy, Debug, PartialEq, Eq)]
pub enum Paging {
    Never,
    /// `--max-items` and `--starting-token`.
    ByItems,
    /// These and `--page-size`.
    ByPages,
}

/// The arguments of an operation, in the order of its input's members, and its options for pages.
#[derive(Debug, Drop)]
pub struct ArgTable {
    pub(crate) arguments: List<Argument>,
    pub(crate) paging: Paging,
}

impl ArgTable {
    ghost use Rattle.arg_table.specs.Tables.{table_of};

    /// The table of an operation of the model, with its row of paginators where it has one.
    pub fn of(
        alloc: Global,
        model: &Model,
        op: &Operation,
        row: Option<&PagerRow>,
    ) -> Result<ArgTable, OutOfMemory>
        requires { IsOperation model.now.shapes op.now }
        ensures { IfOk result (λ table. table ≡ table_of model.now.shapes op.now (option_copied row.entry)) }
    {
        let paging = paging_of(row);
        let Some(id) = op.input else {
            let arguments = List::new(alloc);
            return Ok(ArgTable { arguments, paging });
        };
        let arguments = arguments_of(alloc, model, model.shape(id), row)?;
        Ok(ArgTable { arguments, paging })
    }
}

fn paging_of(row: Option<&PagerRow>) -> Paging
    ensures { result ≡ paging_of (option_copied row.entry) }
{
    match row {
        None => Paging::Never,
        Some(row) if row.limit.is_some() => Paging::ByPages,
        Some(_) => Paging::ByItems,
    }
}

/// The names of members that have a mark.
#[derive(Drop)]
pub struct Marks {
    pub required: IndexSet<Text>,
    pub paged: IndexSet<Text>,
}

/// The arguments of the input's members.
fn arguments_of(
    alloc: Global,
    model: &Model,
    input: &Shape,
    row: Option<&PagerRow>,
) -> Result<List<Argument>, OutOfMemory>
    requires { All (IsMember model.now.shapes) input.now.members }
    ensures { IfOk result (λ arguments. arguments
        ≡ map (λ e. argument_of model.now.shapes input.now.required (paged_by (option_copied row.entry)) e.0 e.1)
        (enumerate_from 0 input.now.members)) }
{
    let required = names_in(alloc, input.required.as_slice())?;
    let paged = paged_by(alloc, row)?;
    let marks = Marks { required, paged };
    let members = input.members.as_slice();
    let mut arguments = Vec::with_capacity(alloc, members.len())?;
    for (at, member) in members.iter().enumerate() {
        arguments.push(argument_of(alloc, model, &marks, at, member)?)?;
    }
    Ok(List::from_vec(arguments))
}

/// A set of these names.
fn names_in(alloc: Global, names: &[Text]) -> Result<IndexSet<Text>, OutOfMemory>
    ensures { IfOk result (λ made. (name : Seq ℕ) →
        list_any (bytes_eq name) made.keys ≡ list_any (bytes_eq name) names.now) }
{
    let mut made = IndexSet::with_capacity(alloc, names.len())?;
    for name in names {
        made.insert(name.copy(alloc)?)?;
    }
    Ok(made)
}

/// The members that take the tokens and the length of a page.
fn paged_by(alloc: Global, row: Option<&PagerRow>) -> Result<IndexSet<Text>, OutOfMemory>
    ensures { IfOk result (λ made. (name : Seq ℕ) →
        list_any (bytes_eq name) made.keys ≡ list_any (bytes_eq name) (paged_by (option_copied row.entry))) }
{
    let Some(row) = row else {
        return Ok(IndexSet::new(alloc));
    };
    let mut made = names_in(alloc, row.inputs.as_slice())?;
    let Some(limit) = &row.limit else {
        return Ok(made);
    };
    made.insert(limit.copy(alloc)?)?;
    Ok(made)
}

/// The argument of the member with this place. A table has no room for more than 2^32 of them.
fn argument_of(
    alloc: Global,
    model: &Model,
    marks: &Marks,
    at: usize,
    member: &Member,
) -> Result<Argument, OutOfMemory>
    requires { IsWithin model.now.shapes member.now.shape }
    ensures { IfOk result (λ argument. (required paged : Seq (Seq ℕ))
        → ((name : Seq ℕ) → list_any (bytes_eq name) marks.now.required.keys ≡ list_any (bytes_eq name) required)
        → ((name : Seq ℕ) → list_any (bytes_eq name) marks.now.paged.keys ≡ list_any (bytes_eq name) paged)
        → argument ≡ argument_of model.now.shapes required paged at member.now) }
{
    let Ok(number) = u32::try_from(at) else {
        return Err(OutOfMemory);
    };
    Ok(Argument {
        member: number,
        name: arg_name(alloc, &member.name)?,
        takes: takes_of(model.shape(member.shape).kind),
        is_needed: marks.required.contains(&member.name) && !member.token,
        is_paged: marks.paged.contains(&member.name),
    })
}

fn takes_of(kind: Kind) -> Takes
    ensures { result ≡ takes_of (Some kind) }
{
    match kind {
        Kind::Boolean => Takes::NoValue,
        Kind::List => Takes::AnyNumber,
        _ => Takes::OneValue,
    }
}
