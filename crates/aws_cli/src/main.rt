//! The command `aws`: the real outside, handed to what does all of the work.
#![tactic(auto)]

mod again;
mod clock;
mod environment;
mod files;
mod link;
mod sink;

use aws_main::run;
use aws_world::{Env, ListDice, MemClock};
use environment::{program_words, variables};
use files::RealFiles;
use json_doc::{List, OutOfMemory, Text};
use link::RealLink;
use sink::StreamSink;
use std::process::ExitCode;

/// The status of a program whose words or environment found no memory.
const FAILED: u8 = 255;

fn main(rt: HostRuntime) -> ExitCode {
    let alloc = rt.alloc();
    let mut err = StreamSink::new(rt.stderr());
    let Ok((words, env)) = given(&rt) else {
        let _ = eprintln!(rt; "\nOut of memory");
        return ExitCode::from(FAILED);
    };
    let ending = run(
        alloc,
        &words,
        &env,
        &mut RealFiles::new(&rt),
        &mut RealLink::new(&rt),
        &mut MemClock::new(alloc, List::new(alloc)),
        &mut ListDice::new(alloc, List::new(alloc), List::new(alloc)),
        &mut StreamSink::new(rt.stdout()),
        &mut err,
    );
    ExitCode::from(ending.status)
}

/// The words after the program's name, and the environment.
fn given(rt: &HostRuntime) -> Result<(List<Text>, Env), OutOfMemory> {
    let words = program_words(rt)?;
    let pairs = variables(rt)?;
    Ok((words, Env { pairs }))
}
