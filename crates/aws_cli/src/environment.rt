use json_doc::{List, OutOfMemory, Text};
use std::alloc::Global;
use std::env;
use std::env::FillError;
use std::io::ErrorKind;
use std::rt::Env;

/// The words after the program's name; none where one of them is no UTF-8.
pub fn program_words(rt: &HostRuntime) -> Result<List<Text>, OutOfMemory> {
    let alloc = rt.alloc();
    let mut words = List::new(alloc);
    let args = match env::args(rt) {
        Ok(args) => args,
        Err(error) if error.kind() == ErrorKind::OutOfMemory => return Err(OutOfMemory),
        Err(_) => return Ok(words),
    };
    let mut is_name = true;
    for word in args {
        if !is_name {
            words.push(Text::from_string(word))?;
        }
        is_name = false;
    }
    Ok(words)
}

/// The variables of the environment whose names and values are UTF-8.
pub fn variables(rt: &HostRuntime) -> Result<List<(Text, Text)>, OutOfMemory> {
    let alloc = rt.alloc();
    let mut pairs = List::new(alloc);
    for at in 0..usize::MAX {
        let Some(entry) = entry(rt, at)? else {
            break;
        };
        if let Some((name, value)) = parts(&entry) {
            pairs.push((Text::from_str(alloc, name)?, Text::from_str(alloc, value)?))?;
        }
    }
    Ok(pairs)
}

/// Name and value of an entry `NAME=value` in UTF-8.
fn parts(entry: &[u8]) -> Option<(&str, &str)> {
    std::str::from_utf8(entry).ok()?.split_once('=')
}

/// An entry of the environment, or None behind the last.
fn entry(rt: &HostRuntime, at: usize) -> Result<Option<Vec<u8>>, OutOfMemory> {
    let mut room = 256usize;
    for _ in 0..usize::BITS {
        let mut bytes = Vec::from_elem(rt.alloc(), 0u8, room)?;
        match rt.var_at(at, &mut bytes) {
            Ok(count) => {
                bytes.truncate(count);
                return Ok(Some(bytes));
            }
            Err(FillError::NotPresent) => return Ok(None),
            Err(FillError::TooLong) => room = room.saturating_add(room),
        }
    }
    Err(OutOfMemory)
}
