//! A line as a command with its settings.
ghost use Rattle.std.specs.Prelude.{◌≡◌, ◌++◌, [], OnOk, IfOk};
ghost use Rattle.arg_table.specs.Heads.{head_of, head_with, is_wait, named_by, next_word, tail_of};
ghost use Rattle.arg_table.specs.Inside.{TakesGroup, next_after, tail_after};
ghost use Rattle.arg_table.specs.Words.{cut};
ghost use Rattle.arg_table.specs.Faults.{is_memory};
ghost use Rattle.texts.specs.Calls.{Answers};

use crate::settings::{Setting, take_setting};
use crate::words::{OptionWord, option_of, split_plain};
use crate::{Group, UsageFault};
use std::alloc::Global;
use texts::{List, OutOfMemory, Text};

/// The command that a line is, with its settings, and the options behind it.
#[derive(Debug, Drop)]
pub struct CommandHead {
    /// The settings options with a value, in the line's order, each with its name.
    pub pairs: List<(Text, Text)>,
    /// Whether requests are signed: `--no-sign-request` isn't there.
    pub sign: bool,
    /// Whether all pages are asked for: `--no-paginate` isn't there.
    pub paginate: bool,
    pub service: Text,
    /// The name of the operation, or of the waiter where the command waits.
    pub operation: Text,
    pub wait: bool,
    /// The options behind the command that are no settings options.
    pub tail: List<Group>,
}

/// Reads the words behind the program's name: `[settings] SERVICE OPERATION [arguments and settings]`,
/// or `wait` and the name of a waiter for the operation. The first fault from the left is answered.
#[tactic(auto, unfolding(crate::specs::Heads::head_of))]
pub fn head(alloc: Global, words: &List<Text>) -> Result<CommandHead, UsageFault>
    ensures { Answers is_memory (λ made. made) result (head_of words.now) }
{
    let mut settings = Vec::new(alloc);
    let (service, behind) = next_word(alloc, &mut settings, words.as_slice())?;
    let (operation, behind) = next_word(alloc, &mut settings, behind)?;
    let wait = is_wait(operation);
    let (operation, behind) = named_by(alloc, &mut settings, operation, behind)?;
    let tail = read_tail(alloc, &mut settings, behind)?;
    let service = service.copy(alloc)?;
    let operation = operation.copy(alloc)?;
    Ok(head_with(alloc, settings, service, operation, wait, tail)?)
}

/// The next word of the command, and the words behind it. The settings before it are put to the others.
fn next_word<'a>(
    alloc: Global,
    settings: &mut Vec<Setting>,
    words: &'a [Text],
) -> Result<(&'a Text, &'a [Text]), UsageFault>
    ensures { Answers is_memory (λ next. record { settings = settings.new.items; word = next.0.now; behind = cut next.1.now })
        result (next_after settings.old.items (next_word (cut words.entry.now))) }
{
    let mut left = words;
    'words: while let Some((word, behind)) = left.split_first() {
        let Some(option) = option_of(alloc, word)? else {
            return Ok((word, behind));
        };
        let Some((setting, behind)) = take_setting(alloc, &option, behind)? else {
            return Err(UsageFault::UnknownOption(option.name));
        };
        settings.push(setting)?;
        left = behind;
    }
    Err(UsageFault::NoCommand)
}

fn is_wait(word: &Text) -> bool
    ensures { result ≡ is_wait word.now }
{
    word.is("wait")
}

/// The operation with the words behind it, or the waiter that is named behind `wait`.
fn named_by<'a>(
    alloc: Global,
    settings: &mut Vec<Setting>,
    operation: &'a Text,
    behind: &'a [Text],
) -> Result<(&'a Text, &'a [Text]), UsageFault>
    ensures { Answers is_memory (λ next. record { settings = settings.new.items; word = next.0.now; behind = cut next.1.now })
        result (named_by (record { settings = settings.old.items; word = operation.entry.now; behind = cut behind.entry.now })) }
{
    if is_wait(operation) {
        return next_word(alloc, settings, behind);
    }
    Ok((operation, behind))
}

/// The groups behind the command. The settings among them are put to the others.
fn read_tail(
    alloc: Global,
    settings: &mut Vec<Setting>,
    words: &[Text],
) -> Result<List<Group>, UsageFault>
    ensures { Answers is_memory (λ groups. record { settings = settings.new.items; groups = groups })
        result (tail_after settings.old.items [] (tail_of (cut words.now))) }
{
    let mut groups = List::new(alloc);
    let mut left = words;
    'words: while let Some((word, behind)) = left.split_first() {
        let Some(option) = option_of(alloc, word)? else {
            return Err(UsageFault::ExtraWord(word.copy(alloc)?));
        };
        let Some((setting, behind)) = take_setting(alloc, &option, behind)? else {
            left = take_group(alloc, &mut groups, option, behind)?;
            continue;
        };
        settings.push(setting)?;
        left = behind;
    }
    Ok(groups)
}

/// Puts the group of an option at the end, and gives the words behind it.
fn take_group<'a>(
    alloc: Global,
    groups: &mut List<Group>,
    option: OptionWord,
    behind: &'a [Text],
) -> Result<&'a [Text], OutOfMemory>
    ensures { TakesGroup groups.old groups.new option behind.entry.now result }
{
    let (plain, left) = split_plain(behind);
    let words = copies(alloc, plain)?;
    groups.push(Group {
        option: option.name,
        joined: option.joined,
        words,
    })?;
    Ok(left)
}

/// Equal texts.
pub fn copies(alloc: Global, texts: &[Text]) -> Result<List<Text>, OutOfMemory>
    ensures { IfOk result (λ made. made ≡ texts.now) }
{
    let mut made = Vec::with_capacity(alloc, texts.len())?;
    for text in texts {
        made.push(text.copy(alloc)?)?;
    }
    Ok(List::from_vec(made))
}

/// The command with what its settings say together.
fn head_with(
    alloc: Global,
    settings: Vec<Setting>,
    service: Text,
    operation: Text,
    wait: bool,
    tail: List<Group>,
) -> Result<CommandHead, OutOfMemory>
    ensures { IfOk result (λ made. made ≡ head_with settings.items service operation wait tail) }
{
    let mut made = CommandHead {
        pairs: List::new(alloc),
        sign: true,
        paginate: true,
        service,
        operation,
        wait,
        tail,
    };
    for setting in settings {
        match setting {
            Setting::Value(name, value) => made.pairs.push((name, value))?,
            Setting::NoSignRequest => made.sign = false,
            Setting::NoPaginate => made.paginate = false,
        }
    }
    Ok(made)
}
