//! The arguments that the members of an input have on the command line.
ghost use Rattle.std.specs.Prelude.{◌≡◌, ℕ, ◌&&◌, ◌||◌, ◌++◌, List as Seq, IfOk, OnOk, codes, bytes_eq};
ghost use Rattle.std.specs.List.{list_any};
ghost use Rattle.service_model.specs.Arguments.{argument_of, arguments_of, is_boolean, kind_of, negation_of, first_shared, shared_argument};
ghost use Rattle.service_model.specs.Inside.{IsUsage};

use crate::{Kind, Member, Shape};
use indexmap::IndexSet;
use json_doc::{OutOfMemory, Text};
use model_files::command_name;
use std::alloc::Global;

/// An argument's name, and whether it is a flag, which has a `no-` form too.
#[derive(Drop)]
pub struct Argument {
    pub name: Text,
    pub is_flag: bool,
}

/// The names that arguments take.
#[derive(Drop)]
struct Usage {
    /// The arguments' own names.
    names: IndexSet<Text>,
    /// The names that two arguments have, or more.
    repeated: IndexSet<Text>,
    /// The `no-` forms of the flags.
    negations: IndexSet<Text>,
}

/// The first argument name, in the members' order, that another member has too, or that is the
/// `no-` form of another's, or whose `no-` form another has.
pub fn shared_argument(
    alloc: Global,
    shapes: &[Shape],
    members: &[Member],
) -> Result<Option<Text>, OutOfMemory>
    ensures { IfOk result (λ name. name ≡ shared_argument shapes.now members.now) }
{
    let arguments = arguments(alloc, shapes, members)?;
    let usage = usage_of(alloc, arguments.as_slice())?;
    first_shared(alloc, &usage, arguments.as_slice())
}

/// The arguments of members, in their order.
fn arguments(
    alloc: Global,
    shapes: &[Shape],
    members: &[Member],
) -> Result<Vec<Argument>, OutOfMemory>
    ensures { IfOk result (λ arguments. arguments.items ≡ arguments_of shapes.now members.now) }
{
    let mut arguments = Vec::with_capacity(alloc, members.len())?;
    for member in members {
        arguments.push(argument_of(alloc, shapes, member)?)?;
    }
    Ok(arguments)
}

fn argument_of(alloc: Global, shapes: &[Shape], member: &Member) -> Result<Argument, OutOfMemory>
    ensures { IfOk result (λ argument. argument ≡ argument_of shapes.now member.now) }
{
    let name = command_name(alloc, &member.name)?;
    let is_flag = is_flag(shapes, member);
    Ok(Argument { name, is_flag })
}

fn is_flag(shapes: &[Shape], member: &Member) -> bool
    ensures { result ≡ is_boolean (kind_of shapes.now member.now.shape) }
{
    match shapes.get(member.shape.0 as usize) {
        Some(shape) => matches!(shape.kind, Kind::Boolean),
        None => false,
    }
}

/// The names that these arguments take.
fn usage_of(alloc: Global, arguments: &[Argument]) -> Result<Usage, OutOfMemory>
    ensures { IfOk result (λ usage. IsUsage arguments.now usage) }
{
    let mut usage = Usage {
        names: IndexSet::with_capacity(alloc, arguments.len())?,
        repeated: IndexSet::new(alloc),
        negations: IndexSet::new(alloc),
    };
    for argument in arguments {
        add_name(alloc, &mut usage, &argument.name)?;
        add_negation(alloc, &mut usage.negations, argument)?;
    }
    Ok(usage)
}

/// Notes one more argument's name.
fn add_name(alloc: Global, usage: &mut Usage, name: &Text) -> Result<(), OutOfMemory>
    ensures names { OnOk result ((text : Seq ℕ) → list_any (bytes_eq text) usage.new.names.keys
        ≡ (list_any (bytes_eq text) usage.old.names.keys || bytes_eq text name.now)) }
    ensures repeated { OnOk result ((text : Seq ℕ) → list_any (bytes_eq text) usage.new.repeated.keys
        ≡ (list_any (bytes_eq text) usage.old.repeated.keys || bytes_eq text name.now && list_any (bytes_eq text) usage.old.names.keys)) }
    ensures negations { OnOk result (usage.new.negations ≡ usage.old.negations) }
{
    if usage.names.contains(name) {
        usage.repeated.insert(name.copy(alloc)?)?;
        return Ok(());
    }
    usage.names.insert(name.copy(alloc)?)?;
    Ok(())
}

/// Notes the `no-` form of an argument that is a flag.
fn add_negation(
    alloc: Global,
    negations: &mut IndexSet<Text>,
    argument: &Argument,
) -> Result<(), OutOfMemory>
    ensures { OnOk result ((text : Seq ℕ) → list_any (bytes_eq text) negations.new.keys
        ≡ (list_any (bytes_eq text) negations.old.keys || argument.now.is_flag && bytes_eq text (negation_of argument.now.name))) }
{
    if argument.is_flag {
        negations.insert(negation_of(alloc, &argument.name)?)?;
    }
    Ok(())
}

/// A name's `no-` form.
fn negation_of(alloc: Global, name: &Text) -> Result<Text, OutOfMemory>
    ensures { IfOk result (λ negation. negation ≡ negation_of name.now) }
{
    let mut negation = Text::new(alloc);
    negation.push_ascii("no-")?;
    negation.push_str(name.as_str())?;
    Ok(negation)
}

/// The first name that clashes with another argument.
fn first_shared(
    alloc: Global,
    usage: &Usage,
    arguments: &[Argument],
) -> Result<Option<Text>, OutOfMemory>
    requires { IsUsage arguments.now usage.now }
    ensures { IfOk result (λ name. name ≡ first_shared arguments.now) }
{
    for argument in arguments {
        if is_shared(alloc, usage, argument)? {
            return Ok(Some(argument.name.copy(alloc)?));
        }
    }
    Ok(None)
}

/// Whether another argument has this name or its `no-` form, or is the flag whose `no-` form it is.
fn is_shared(alloc: Global, usage: &Usage, argument: &Argument) -> Result<bool, OutOfMemory>
    ensures { IfOk result (λ shared. shared ≡ (list_any (bytes_eq argument.now.name) usage.now.repeated.keys
        || (list_any (bytes_eq argument.now.name) usage.now.negations.keys
        || argument.now.is_flag && list_any (bytes_eq (negation_of argument.now.name)) usage.now.names.keys))) }
{
    if usage.repeated.contains(&argument.name) || usage.negations.contains(&argument.name) {
        return Ok(true);
    }
    if !argument.is_flag {
        return Ok(false);
    }
    let negation = negation_of(alloc, &argument.name)?;
    Ok(usage.names.contains(&negation))
}
