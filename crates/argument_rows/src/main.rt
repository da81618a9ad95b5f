//! Worked rows of arguments: each line of standard input is a row. The answer of each is printed, and a line `--`.
//! What must be printed stands in the file `stdout` beside this folder.
#![tactic(auto)]

mod arguments;

use json_doc::{OutOfMemory, Text};
use row_words::{unknown, words};
use std::alloc::Global;
use std::io;

fn main(rt: HostRuntime) -> io::Result<()> {
    let alloc = rt.alloc();
    for line in rt.lines(alloc) {
        match answer(alloc, line?.as_str()) {
            Ok(text) => println!(rt; "{text}\n--")?,
            Err(_) => println!(rt; "Out of memory\n--")?,
        }
    }
    Ok(())
}

/// The answer of a line.
fn answer(alloc: Global, line: &str) -> Result<Text, OutOfMemory> {
    match words(alloc, line)?.as_slice() {
        [call, text] if call.as_slice() == b"shorthand".as_slice() => {
            arguments::tree_of(alloc, text.as_slice())
        }
        [call, text] if call.as_slice() == b"moment".as_slice() => {
            arguments::instant_of(alloc, text.as_slice())
        }
        _ => unknown(alloc),
    }
}
