//! What a name means in the line of an operation.
ghost use Rattle.std.specs.Prelude.{◌≡◌, ◌∷◌, [], ℕ, List as Seq, None, Some, if◌then◌else◌, IfOk, OnOk, nat_eq, bytes_eq};
ghost use Rattle.std.specs.Cmp.Lexicographic.{pointwise};
ghost use Rattle.indexmap.specs.IndexMap.{get};
ghost use Rattle.service_model.specs.Arguments.{negation_of};
ghost use Rattle.arg_table.specs.Tables.{paging_named, option_named, argument_named, is_flag, meant_by, meaning_of};
ghost use Rattle.arg_table.specs.Inside.{IsNamed, or_meant};

use crate::ArgTable;
use crate::settings::is_setting;
use crate::table::{Argument, Paging, Takes};
use indexmap::IndexMap;
use std::alloc::Global;
use texts::{OutOfMemory, Text};

/// What a name means.
#[derive(Clone, Copy)]
pub enum Meaning {
    InputJson,
    StartingToken,
    MaxItems,
    PageSize,
    Argument(Meant),
}

/// The argument that is meant.
#[derive(Clone, Copy)]
pub struct Meant {
    /// Its member's place in the input.
    pub member: u32,
    pub takes: Takes,
    /// Whether it is named by its `no-` form.
    pub no: bool,
}

/// The names of arguments, and the `no-` forms of those that are flags.
pub type Names = IndexMap<Text, Meant>;

/// What the arguments are named.
pub fn names_of(alloc: Global, arguments: &[Argument]) -> Result<Names, OutOfMemory>
    ensures { IfOk result (IsNamed arguments.now) }
{
    let mut names = IndexMap::with_capacity(alloc, arguments.len())?;
    for argument in arguments {
        add_names(alloc, &mut names, argument)?;
    }
    Ok(names)
}

/// Notes the name of one more argument, and its `no-` form where it is a flag.
fn add_names(alloc: Global, names: &mut Names, argument: &Argument) -> Result<(), OutOfMemory>
    ensures { OnOk result ((name : Seq ℕ) → get (pointwise nat_eq) names.new name
        ≡ or_meant (get (pointwise nat_eq) names.old name) (argument_named (argument.now ∷ []) name)) }
{
    let name = argument.name.copy(alloc)?;
    add_name(names, name, meant_by(argument, false))?;
    if !is_flag(argument.takes) {
        return Ok(());
    }
    let negation = negation_of(alloc, &argument.name)?;
    add_name(names, negation, meant_by(argument, true))?;
    Ok(())
}

fn is_flag(takes: Takes) -> bool
    ensures { result ≡ is_flag takes }
{
    matches!(takes, Takes::NoValue)
}

fn meant_by(argument: &Argument, no: bool) -> Meant
    ensures { result ≡ meant_by argument.now no }
{
    Meant {
        member: argument.member,
        takes: argument.takes,
        no,
    }
}

/// A name's `no-` form.
fn negation_of(alloc: Global, name: &Text) -> Result<Text, OutOfMemory>
    ensures { IfOk result (λ negation. negation ≡ negation_of name.now) }
{
    let mut negation = Text::new(alloc);
    negation.push_ascii("no-")?;
    negation.push_str(name.as_str())?;
    Ok(negation)
}

/// Notes what a name means, unless it means something already.
fn add_name(names: &mut Names, name: Text, meant: Meant) -> Result<(), OutOfMemory>
    ensures { OnOk result ((other : Seq ℕ) → get (pointwise nat_eq) names.new other
        ≡ or_meant (get (pointwise nat_eq) names.old other) (if bytes_eq other name then Some meant else None)) }
{
    if names.contains_key(&name) {
        return Ok(());
    }
    names.insert(name, meant)?;
    Ok(())
}

/// What a name means; a waiter has no options for pages.
pub fn meaning_of(table: &ArgTable, names: &Names, waits: bool, name: &Text) -> Option<Meaning>
    requires { IsNamed table.now.arguments names.now }
    ensures { result ≡ meaning_of table.now waits name.now }
{
    let paging = if waits { Paging::Never } else { table.paging };
    if let Some(option) = option_named(paging, name) {
        return Some(option);
    }
    if is_setting(name) {
        return None;
    }
    names.get(name).map(|meant| Meaning::Argument(*meant))
}

/// The option of the operation itself with this name.
fn option_named(paging: Paging, name: &Text) -> Option<Meaning>
    ensures { result ≡ option_named paging name.now }
{
    if name.is("cli-input-json") {
        return Some(Meaning::InputJson);
    }
    paging_named(paging, name)
}

fn paging_named(paging: Paging, name: &Text) -> Option<Meaning>
    ensures { result ≡ paging_named paging name.now }
{
    match paging {
        Paging::Never => None,
        Paging::ByPages if name.is("page-size") => Some(Meaning::PageSize),
        _ if name.is("max-items") => Some(Meaning::MaxItems),
        _ if name.is("starting-token") => Some(Meaning::StartingToken),
        _ => None,
    }
}
