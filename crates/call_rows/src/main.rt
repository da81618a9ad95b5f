//! Worked rows of calls with their retries: each line of standard input is a row. The answer of each is printed, and a
//! line `--`. What must be printed stands in the file `stdout` beside this folder.
#![tactic(auto)]

mod calls;
mod outside;
mod rules;
mod settings;

use json_doc::{OutOfMemory, Text};
use row_words::{unknown, words};
use std::alloc::Global;
use std::io;

fn main(rt: HostRuntime) -> io::Result<()> {
    let alloc = rt.alloc();
    for line in rt.lines(alloc) {
        match answer(alloc, line?.as_str()) {
            Ok(text) => println!(rt; "{text}\n--")?,
            Err(_) => println!(rt; "Out of memory\n--")?,
        }
    }
    Ok(())
}

/// The answer of a line.
fn answer(alloc: Global, line: &str) -> Result<Text, OutOfMemory> {
    match words(alloc, line)?.as_slice() {
        [call, words @ ..] if call.as_slice() == b"calls".as_slice() => calls::calls(alloc, words),
        [call, words @ ..] if call.as_slice() == b"class".as_slice() => rules::class(alloc, words),
        [call, words @ ..] if call.as_slice() == b"decide".as_slice() => {
            rules::decision(alloc, words)
        }
        [call, words @ ..] if call.as_slice() == b"backoff".as_slice() => {
            rules::pause(alloc, words)
        }
        _ => unknown(alloc),
    }
}
