//! The words of worked rows: each row is a line, a call and its arguments with a tab between each two, where `%`
//! and two hexadecimal digits stand for any byte.
#![tactic(auto)]

use json_doc::{OutOfMemory, Text};
use percent_encoding::percent_decode_str;
use std::alloc::Global;
use std::fmt::Display;

/// The bytes that the words of a row stand for.
pub fn words(alloc: Global, line: &str) -> Result<Vec<Vec<u8>>, OutOfMemory> {
    let mut words = Vec::new(alloc);
    for word in line.split('\t') {
        words.push(bytes(alloc, word)?)?;
    }
    Ok(words)
}

fn bytes(alloc: Global, word: &str) -> Result<Vec<u8>, OutOfMemory> {
    let mut bytes = Vec::new(alloc);
    percent_decode_str(word).append_to(&mut bytes)?;
    Ok(bytes)
}

/// The text of bytes in UTF-8; of others, an empty one.
pub fn text_of(alloc: Global, bytes: &[u8]) -> Result<Text, OutOfMemory> {
    Text::from_str(alloc, std::str::from_utf8(bytes).unwrap_or(""))
}

/// What is told of a fault.
pub fn told(alloc: Global, fault: &impl Display) -> Result<Text, OutOfMemory> {
    let text = format!(in alloc; "{fault}")?;
    Ok(Text::from_string(text))
}

/// What is told of a row whose call has no answer here.
pub fn unknown(alloc: Global) -> Result<Text, OutOfMemory> {
    Text::from_str(alloc, "There is no such call")
}
