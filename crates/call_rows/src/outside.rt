//! The outside of a row: what its connections do, its moments and its words.
//!
//! Connections stand in JSON, a list of objects: `refuse` is the fault of a connection that isn't made, `reply` what is
//! received, `after` the fault behind that, and `times` how many connections go so. Faults are `connect`, `timeout` and
//! `broken`.
ghost use Rattle.std.specs.Prelude.{◌≡◌, false, IfOk};

use aws_world::{Link, LinkFault, ListDice, MemClock, Script, ScriptLink};
use json_doc::{Bytes, Decimal, Doc, List, OutOfMemory, Pairs, read};
use std::alloc::Global;

/// A link whose connections go by these scripts, in pieces of so many bytes.
pub fn link_of(alloc: Global, scripts: &[u8], piece: u32) -> Result<ScriptLink, OutOfMemory>
    ensures { IfOk result (λ link. ⟦<ScriptLink as Link>⟧.live link ≡ false) }
{
    let piece = if piece == 0 { 1 } else { piece };
    Ok(ScriptLink::new(alloc, scripts_of(alloc, scripts)?, piece))
}

fn scripts_of(alloc: Global, text: &[u8]) -> Result<List<Script>, OutOfMemory> {
    let mut scripts = List::new(alloc);
    if let Ok(Doc::Items(items)) = read(alloc, text) {
        for item in items.as_slice() {
            if let Doc::Fields(fields) = item {
                push_scripts(alloc, &mut scripts, fields)?;
            }
        }
    }
    Ok(scripts)
}

fn push_scripts(
    alloc: Global,
    scripts: &mut List<Script>,
    fields: &Pairs<Doc>,
) -> Result<(), OutOfMemory> {
    let reply = match fields.get("reply") {
        Some(Doc::Str(text)) => text.as_str().as_bytes(),
        _ => &[],
    };
    let times = match fields.get("times") {
        Some(Doc::Number(times)) => count_of(times),
        _ => 1,
    };
    for _ in 0..times {
        scripts.push(Script {
            refuse: fault_of(fields.get("refuse")),
            stop_send: None,
            reply: Bytes::from_slice(alloc, reply)?,
            after: fault_of(fields.get("after")),
        })?;
    }
    Ok(())
}

fn count_of(number: &Decimal) -> u32 {
    u32::try_from(number.whole().unwrap_or(1)).unwrap_or(1)
}

fn fault_of(doc: Option<&Doc>) -> Option<LinkFault> {
    match doc {
        Some(Doc::Str(name)) if name.is("connect") => Some(LinkFault::Connect),
        Some(Doc::Str(name)) if name.is("timeout") => Some(LinkFault::Timeout),
        Some(Doc::Str(_)) => Some(LinkFault::Broken),
        _ => None,
    }
}

/// A clock that gives these moments, written with a blank between each two.
pub fn clock_of(alloc: Global, moments: &str) -> Result<MemClock, OutOfMemory> {
    let mut made = List::new(alloc);
    for moment in moments.split(' ') {
        if let Ok(moment) = moment.parse::<i64>() {
            made.push(moment)?;
        }
    }
    Ok(MemClock::new(alloc, made))
}

/// These words, written likewise; `100x0` stands for a hundred times 0.
pub fn dice_of(alloc: Global, words: &str) -> Result<ListDice, OutOfMemory> {
    let mut made = List::new(alloc);
    for word in words.split(' ') {
        let (times, word) = word.split_once('x').unwrap_or(("1", word));
        if let Ok(word) = word.parse::<u32>() {
            for _ in 0..times.parse::<u32>().unwrap_or(0) {
                made.push(word)?;
            }
        }
    }
    Ok(ListDice::new(alloc, made, List::new(alloc)))
}
