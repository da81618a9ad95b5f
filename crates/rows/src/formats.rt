//! The three formats of results.
use json_doc::{OutOfMemory, Text, read};
use row_words::{text_of as title_of, told};
use std::alloc::Global;

/// A document as JSON.
pub fn json_of(alloc: Global, bytes: &[u8]) -> Result<Text, OutOfMemory> {
    match read(alloc, bytes) {
        Ok(doc) => out_format::json(alloc, &doc),
        Err(fault) => told(alloc, &fault),
    }
}

/// A document as lines of text.
pub fn text_of(alloc: Global, bytes: &[u8]) -> Result<Text, OutOfMemory> {
    match read(alloc, bytes) {
        Ok(doc) => out_format::text(alloc, &doc),
        Err(fault) => told(alloc, &fault),
    }
}

/// A document as a table with this title.
pub fn table_of(alloc: Global, title: &[u8], bytes: &[u8]) -> Result<Text, OutOfMemory> {
    let title = title_of(alloc, title)?;
    match read(alloc, bytes) {
        Ok(doc) => out_format::table(alloc, &title, &doc),
        Err(fault) => told(alloc, &fault),
    }
}
