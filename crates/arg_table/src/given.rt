//! What each option of a line gives.
ghost use Rattle.std.specs.Prelude.{◌≡◌, ◌∷◌, [], Ok, IfOk};
ghost use Rattle.arg_table.specs.declared.table.Takes.TheVariants as takes;
ghost use Rattle.arg_table.specs.Given.{no_more, sole, sole_count, words_of, listed, given_as, given_in};
ghost use Rattle.arg_table.specs.Inside.{IsFirst};
ghost use Rattle.arg_table.specs.Faults.{is_memory};
ghost use Rattle.texts.specs.Calls.{Answers};

use crate::command::copies;
use crate::counts::count_of;
use crate::lines::Arg;
use crate::meaning::{Meaning, Meant, meaning_of, names_of};
use crate::table::Takes;
use crate::{ArgTable, Group, UsageFault};
use std::alloc::Global;
use texts::{List, OutOfMemory, Text};

/// How many items may be asked for at most.
const MOST_ITEMS: u64 = 1_000_000_000_000;

/// How many items a page may have at most.
const MOST_ON_PAGE: u64 = 2_147_483_647;

/// What an option of a line gives.
#[derive(Drop)]
pub enum Given {
    Argument(Arg),
    InputJson(Text),
    StartingToken(Text),
    MaxItems(u64),
    PageSize(u64),
}

/// What the options give, in their order.
pub fn given_in(
    alloc: Global,
    table: &ArgTable,
    waits: bool,
    groups: &[Group],
) -> Result<Vec<Given>, UsageFault>
    ensures { Answers is_memory (λ made. made.items) result (given_in table.now waits groups.now) }
{
    let names = names_of(alloc, table.arguments.as_slice())?;
    let mut made = Vec::with_capacity(alloc, groups.len())?;
    for group in groups {
        let meaning = meaning_of(table, &names, waits, &group.option);
        made.push(given_as(alloc, group, meaning)?)?;
    }
    Ok(made)
}

/// What an option with this meaning gives.
fn given_as(alloc: Global, group: &Group, meaning: Option<Meaning>) -> Result<Given, UsageFault>
    ensures { Answers is_memory (λ given. given) result (given_as group.now meaning) }
{
    match meaning {
        None => Err(UsageFault::UnknownArgument(group.option.copy(alloc)?)),
        Some(Meaning::InputJson) => Ok(Given::InputJson(sole_text(alloc, group)?)),
        Some(Meaning::StartingToken) => Ok(Given::StartingToken(sole_text(alloc, group)?)),
        Some(Meaning::MaxItems) => Ok(Given::MaxItems(sole_count(alloc, group, 0, MOST_ITEMS)?)),
        Some(Meaning::PageSize) => Ok(Given::PageSize(sole_count(alloc, group, 1, MOST_ON_PAGE)?)),
        Some(Meaning::Argument(meant)) => Ok(Given::Argument(arg_of(alloc, group, meant)?)),
    }
}

fn arg_of(alloc: Global, group: &Group, meant: Meant) -> Result<Arg, UsageFault>
    ensures words { Answers is_memory (λ arg. arg.words) result (words_of meant.takes group.now) }
    ensures same { IfOk result (λ arg. (arg.member ≡ meant.member) × (arg.no ≡ meant.no)) }
{
    let words = words_of(alloc, group, meant.takes)?;
    Ok(Arg {
        member: meant.member,
        words,
        no: meant.no,
    })
}

/// The words of an argument.
fn words_of(alloc: Global, group: &Group, takes: Takes) -> Result<List<Text>, UsageFault>
    ensures { Answers is_memory (λ words. words) result (words_of takes group.now) }
{
    match takes {
        Takes::NoValue => no_values(alloc, group),
        Takes::OneValue => Ok(list_of(alloc, sole_text(alloc, group)?)?),
        Takes::AnyNumber => listed(alloc, group),
    }
}

/// No words: a flag takes none.
fn no_values(alloc: Global, group: &Group) -> Result<List<Text>, UsageFault>
    ensures { Answers is_memory (λ words. words) result (words_of takes.NoValue group.now) }
{
    if group.joined.is_some() {
        return Err(UsageFault::BadChoice(group.option.copy(alloc)?));
    }
    no_more(alloc, group.words.as_slice())?;
    Ok(List::new(alloc))
}

/// Any number of words, or one joined value.
fn listed(alloc: Global, group: &Group) -> Result<List<Text>, UsageFault>
    ensures { Answers is_memory (λ words. words) result (listed group.now.joined group.now.words) }
{
    let Some(value) = &group.joined else {
        return Ok(copies(alloc, group.words.as_slice())?);
    };
    no_more(alloc, group.words.as_slice())?;
    Ok(list_of(alloc, value.copy(alloc)?)?)
}

fn list_of(alloc: Global, text: Text) -> Result<List<Text>, OutOfMemory>
    ensures { IfOk result (λ made. made ≡ text ∷ []) }
{
    let mut made = List::new(alloc);
    made.push(text)?;
    Ok(made)
}

/// The one value of an option.
fn sole_text(alloc: Global, group: &Group) -> Result<Text, UsageFault>
    ensures { Answers is_memory (λ text. text) result (sole Ok group.now) }
{
    let (value, left) = first_value(alloc, group)?;
    no_more(alloc, left)?;
    Ok(value.copy(alloc)?)
}

/// The one value of an option, as a count in a range.
fn sole_count(alloc: Global, group: &Group, least: u64, most: u64) -> Result<u64, UsageFault>
    ensures { Answers is_memory (λ count. count) result (sole_count least most group.now) }
{
    let (value, left) = first_value(alloc, group)?;
    let Some(count) = count_of(value.as_str(), least, most) else {
        return Err(UsageFault::BadCount(group.option.copy(alloc)?));
    };
    no_more(alloc, left)?;
    Ok(count)
}

/// The first value of an option, and the words behind it.
fn first_value(alloc: Global, group: &Group) -> Result<(&Text, &[Text]), UsageFault>
    ensures { IsFirst group.now result }
{
    let words = group.words.as_slice();
    if let Some(value) = &group.joined {
        return Ok((value, words));
    }
    match words.split_first() {
        Some((value, left)) => Ok((value, left)),
        None => Err(UsageFault::MissingValue(group.option.copy(alloc)?)),
    }
}

/// Refuses a further word.
fn no_more(alloc: Global, words: &[Text]) -> Result<(), UsageFault>
    ensures { Answers is_memory (λ x. x) result (no_more words.now tt) }
{
    match words.first() {
        Some(word) => Err(UsageFault::ExtraWord(word.copy(alloc)?)),
        None => Ok(()),
    }
}
