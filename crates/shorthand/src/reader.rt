ghost use Rattle.std.specs.Prelude.{◌≡◌, ◌≤◌, ◌⊎◌, ℕ, IfOk, IfErr, MatchResult};
ghost use Rattle.shorthand.specs.declared.short.Short.{Short as Tree};
ghost use Rattle.shorthand.specs.declared.fault.ShortFault.TheVariants as fault;
ghost use Rattle.shorthand.specs.declared.fault.Stop.TheVariants as stop;
ghost use Rattle.shorthand.specs.Grammar.{IsShorthand};
ghost use Rattle.shorthand.specs.Faults.{HasFault};
ghost use Rattle.shorthand.specs.Reading.{Stops, begins, finished, shown_word, IsPlaced, key_length};

use crate::begun::{Group, with_pair, with_value};
use crate::fault::Stop;
use crate::fields::FieldTable;
use crate::places::{Place, Reader, Run};
use crate::stack::Stack;
use crate::steps::step;
use crate::{Short, ShortFault};
use std::alloc::Global;
use texts::{OutOfMemory, Text};

/// Reads shorthand, `key=value` pairs with commas between them, where values may be quoted, lists in
/// brackets or pairs in braces. The tree of a text is always `Fields`.
pub fn shorthand(alloc: Global, text: &Text) -> Result<Short, ShortFault>
    // What is read is the tree of the text; where it has one, that is read.
    ensures found { IfOk result (λ tree. IsShorthand text.now tree) }
    ensures only { (tree : Tree) → IsShorthand text.now tree
        → MatchResult result (λ read. read ≡ tree) (λ f. f ≡ fault.OutOfMemory) }

    // A fault is that of the text; where it has one, that is answered.
    ensures refused { IfErr result (λ f. (f ≡ fault.OutOfMemory) ⊎ ((at : ℕ) × (f ≡ fault.At at) × HasFault text.now at)) }
    ensures fault { (at : ℕ) → HasFault text.now at
        → MatchResult result (λ _. ⊥) (λ f. (f ≡ fault.At at) ⊎ (f ≡ fault.OutOfMemory)) }
{
    let mut reader = start_of_text(alloc);
    let mut at = 0;
    for c in text.as_str().chars() {
        reader = match step(alloc, reader, c) {
            Ok(next) => next,
            Err(stop) => return Err(fault_at(at, stop)),
        };
        at += c.len_utf8();
    }
    match finish(alloc, reader) {
        Ok(tree) => Ok(tree),
        Err(stop) => Err(fault_at(at, stop)),
    }
}

fn start_of_text(alloc: Global) -> Reader
    ensures { result ≡ begins }
{
    Reader {
        outer: Stack::new(alloc),
        place: Place::Key(FieldTable::new(alloc), Text::new(alloc), false),
    }
}

// The fault of a reason that is met at this offset. A key that stood before ends there.
fn fault_at(at: usize, stop: Stop) -> ShortFault
    requires { key_length stop ≤ at }
    ensures { IsPlaced at stop result }
{
    match stop {
        Stop::Refused => ShortFault::At(at as u64),
        Stop::RepeatedKey(len) => ShortFault::At((at - len) as u64),
        Stop::OutOfMemory => ShortFault::OutOfMemory,
    }
}

// What a value without quotes stands for at its end.
fn whole_word(word: Text, run: Run) -> Result<Text, OutOfMemory>
    ensures { IfOk result (λ whole. whole ≡ shown_word word run) }
{
    let mut word = word;
    match run {
        Run::Backslash => word.push('\\')?,
        Run::Key | Run::Plain => {}
    }
    Ok(word)
}

// The tree of a text that ends here.
fn finish(alloc: Global, reader: Reader) -> Result<Short, Stop>
    ensures read { IfOk result (λ tree. finished reader ≡ Some tree) }
    ensures fault { IfErr result (Stops (λ s. (s ≡ stop.Refused) × (finished reader ≡ None))) }
{
    let Reader { outer, place } = reader;
    let group = match place {
        Place::First(group) | Place::Behind(group) => group,
        Place::Bare(group, word, run) => with_value(group, Short::Word(whole_word(word, run)?))?,
        Place::Key(_, _, _) | Place::Next(_) | Place::Quoted(_, _, _, _) => {
            return Err(Stop::Refused);
        }
    };
    match group {
        Group::Pair(begun) if outer.len() == 0 => {
            let fields = with_pair(alloc, begun)?;
            Ok(Short::Fields(fields.into_pairs(alloc)?))
        }
        _ => Err(Stop::Refused),
    }
}
