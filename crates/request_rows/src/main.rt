//! Worked rows of requests: each line of standard input is a row. The answer of each is printed, and a line `--`.
//! What must be printed stands in the file `stdout` beside this folder.
#![tactic(auto)]

mod requests;

use json_doc::{OutOfMemory, Text};
use row_words::{unknown, words};
use std::alloc::Global;
use std::io;

fn main(rt: HostRuntime) -> io::Result<()> {
    let alloc = rt.alloc();
    for line in rt.lines(alloc) {
        match answer(alloc, line?.as_str()) {
            Ok(text) => println!(rt; "{text}\n--")?,
            Err(_) => println!(rt; "Out of memory\n--")?,
        }
    }
    Ok(())
}

/// The answer of a line.
fn answer(alloc: Global, line: &str) -> Result<Text, OutOfMemory> {
    let words = words(alloc, line)?;
    let [call, file, command, place, value] = words.as_slice() else {
        return unknown(alloc);
    };
    let (file, command) = (file.as_slice(), command.as_slice());
    let (place, value) = (place.as_slice(), value.as_slice());
    match call.as_slice() {
        b"request" => requests::request(alloc, file, command, place, value),
        b"signed" => requests::signed(alloc, file, command, place, value),
        b"identified" => requests::identified(alloc, file, command, place, value),
        _ => unknown(alloc),
    }
}
