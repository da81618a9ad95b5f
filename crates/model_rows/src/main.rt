//! Worked rows of the crates over models of services: each line of standard input is a row. The answer of each is
//! printed, and a line `--`. What must be printed stands in the file `stdout` beside this folder.
#![tactic(auto)]

mod call;
mod lines;
mod models;
mod values;

use std::io;

fn main(rt: HostRuntime) -> io::Result<()> {
    let alloc = rt.alloc();
    for line in rt.lines(alloc) {
        match call::answer(alloc, line?.as_str()) {
            Ok(text) => println!(rt; "{text}\n--")?,
            Err(_) => println!(rt; "Out of memory\n--")?,
        }
    }
    Ok(())
}
