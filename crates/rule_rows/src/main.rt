//! Worked rows of endpoint rules: each line of standard input is a row. The answer of each is printed, and a line
//! `--`. What must be printed stands in the file `stdout` beside this folder. The rows `partitions`, `rules` and
//! `resolve` are also what `tools/check-rules` asks.
#![tactic(auto)]

mod asking;
mod calls;

use asking::Asking;
use json_doc::{OutOfMemory, Text};
use row_words::{unknown, words};
use std::alloc::Global;
use std::io;

fn main(rt: HostRuntime) -> io::Result<()> {
    let alloc = rt.alloc();
    let mut asking = Asking::new();
    for line in rt.lines(alloc) {
        match answer(alloc, &mut asking, line?.as_str()) {
            Ok(text) => println!(rt; "{text}\n--")?,
            Err(_) => println!(rt; "Out of memory\n--")?,
        }
    }
    Ok(())
}

/// The answer of a line.
fn answer(alloc: Global, asking: &mut Asking, line: &str) -> Result<Text, OutOfMemory> {
    match words(alloc, line)?.as_slice() {
        [call, text] => of_one(alloc, asking, call.as_slice(), text.as_slice()),
        [call, rules, partitions, parameters] if call.as_slice() == b"endpoint".as_slice() => {
            calls::endpoint(
                alloc,
                rules.as_slice(),
                partitions.as_slice(),
                parameters.as_slice(),
            )
        }
        _ => unknown(alloc),
    }
}

fn of_one(
    alloc: Global,
    asking: &mut Asking,
    call: &[u8],
    text: &[u8],
) -> Result<Text, OutOfMemory> {
    match call {
        b"rules" => asking.take_rules(alloc, text),
        b"partitions" => asking.take_partitions(alloc, text),
        b"resolve" => asking.resolve(alloc, text),
        b"endpoint-of" => calls::endpoint_of(alloc, text),
        b"rule-text" => calls::rule_text(alloc, text),
        b"rule-truth" => calls::rule_truth(alloc, text),
        _ => unknown(alloc),
    }
}
