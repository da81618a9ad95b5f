//! The settings options of a line.
ghost use Rattle.std.specs.Prelude.{◌≡◌, IfOk};
ghost use Rattle.arg_table.specs.Settings.{takes_value, flag_named, is_setting, is_format, valued};
ghost use Rattle.arg_table.specs.Inside.{TakesValue, TakesSetting};
ghost use Rattle.arg_table.specs.Faults.{is_memory};
ghost use Rattle.texts.specs.Calls.{Answers};

use crate::UsageFault;
use crate::words::{OptionWord, is_option};
use std::alloc::Global;
use texts::Text;

/// What a settings option says.
#[derive(Drop)]
pub enum Setting {
    /// An option with its value.
    Value(Text, Text),
    NoSignRequest,
    NoPaginate,
}

/// Whether a settings option with one value has this name.
fn takes_value(name: &Text) -> bool
    ensures { result ≡ takes_value name.now }
{
    name.is("region")
        || name.is("profile")
        || name.is("output")
        || name.is("endpoint-url")
        || name.is("query")
}

/// The settings flag with this name.
fn flag_named(name: &Text) -> Option<Setting>
    ensures { result ≡ flag_named name.now }
{
    if name.is("no-sign-request") {
        return Some(Setting::NoSignRequest);
    }
    if name.is("no-paginate") {
        return Some(Setting::NoPaginate);
    }
    None
}

/// Whether a settings option has this name.
pub fn is_setting(name: &Text) -> bool
    ensures { result ≡ is_setting name.now }
{
    takes_value(name) || flag_named(name).is_some()
}

/// What a settings option says, and the words behind what it takes; None for any other option.
pub fn take_setting<'a>(
    alloc: Global,
    option: &OptionWord,
    behind: &'a [Text],
) -> Result<Option<(Setting, &'a [Text])>, UsageFault>
    ensures { TakesSetting option.now behind.entry.now result }
{
    if takes_value(&option.name) {
        let (value, left) = take_value(alloc, option, behind)?;
        let setting = valued(alloc, &option.name, value)?;
        return Ok(Some((setting, left)));
    }
    let Some(setting) = flag_named(&option.name) else {
        return Ok(None);
    };
    if option.joined.is_some() {
        return Err(UsageFault::BadChoice(option.name.copy(alloc)?));
    }
    Ok(Some((setting, behind)))
}

/// The value of an option, joined or the next plain word, and the words behind it.
fn take_value<'a>(
    alloc: Global,
    option: &OptionWord,
    behind: &'a [Text],
) -> Result<(Text, &'a [Text]), UsageFault>
    ensures { TakesValue option.now behind.entry.now result }
{
    if let Some(value) = &option.joined {
        return Ok((value.copy(alloc)?, behind));
    }
    match behind.split_first() {
        Some((value, left)) if !is_option(value) => Ok((value.copy(alloc)?, left)),
        _ => Err(UsageFault::MissingValue(option.name.copy(alloc)?)),
    }
}

/// An option with its value; that of `--output` is the name of a format.
fn valued(alloc: Global, name: &Text, value: Text) -> Result<Setting, UsageFault>
    ensures { Answers is_memory (λ setting. setting) result (valued name.now value) }
{
    if name.is("output") && !is_format(&value) {
        return Err(UsageFault::BadChoice(name.copy(alloc)?));
    }
    Ok(Setting::Value(name.copy(alloc)?, value))
}

fn is_format(value: &Text) -> bool
    ensures { result ≡ is_format value.now }
{
    value.is("json") || value.is("text") || value.is("table")
}
