//! Reading and printing of JSON documents.
use json_doc::{OutOfMemory, Text, compact, copy, indented, is_json_text, read};
use row_words::told;
use std::alloc::Global;

/// A document on one line, or why the bytes are none.
pub fn compact_of(alloc: Global, bytes: &[u8]) -> Result<Text, OutOfMemory> {
    match read(alloc, bytes) {
        Ok(doc) => compact(alloc, &doc),
        Err(fault) => told(alloc, &fault),
    }
}

/// A copy of a document on several lines.
pub fn lines_of(alloc: Global, bytes: &[u8]) -> Result<Text, OutOfMemory> {
    match read(alloc, bytes) {
        Ok(doc) => indented(alloc, &copy(alloc, &doc)?),
        Err(fault) => told(alloc, &fault),
    }
}

pub fn is_json(alloc: Global, bytes: &[u8]) -> Result<Text, OutOfMemory> {
    if is_json_text(alloc, bytes)? {
        Text::from_str(alloc, "JSON")
    } else {
        Text::from_str(alloc, "no JSON")
    }
}
