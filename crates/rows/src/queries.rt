//! Queries of documents.
use jmes_eval::{search, set};
use jmes_syntax::parse;
use json_doc::{OutOfMemory, Text, compact, read};
use row_words::{text_of, told};
use std::alloc::Global;

/// The value of a query for a document, or the fault that is met first.
pub fn found(alloc: Global, query: &[u8], document: &[u8]) -> Result<Text, OutOfMemory> {
    let doc = match read(alloc, document) {
        Ok(doc) => doc,
        Err(fault) => return told(alloc, &fault),
    };
    let expr = match parse(alloc, &text_of(alloc, query)?) {
        Ok(expr) => expr,
        Err(fault) => return told(alloc, &fault),
    };
    match search(alloc, &expr, &doc) {
        Ok(found) => compact(alloc, &found),
        Err(fault) => told(alloc, &fault),
    }
}

/// A document after a value was set along a chain of names.
pub fn after_set(
    alloc: Global,
    path: &[u8],
    document: &[u8],
    value: &[u8],
) -> Result<Text, OutOfMemory> {
    let (mut doc, value) = match (read(alloc, document), read(alloc, value)) {
        (Ok(doc), Ok(value)) => (doc, value),
        (Err(fault), _) | (_, Err(fault)) => return told(alloc, &fault),
    };
    match parse(alloc, &text_of(alloc, path)?) {
        Ok(path) if jmes_syntax::is_path(&path) => {
            set(alloc, &path, &mut doc, value)?;
            compact(alloc, &doc)
        }
        Ok(_) => Text::from_str(alloc, "no path"),
        Err(fault) => told(alloc, &fault),
    }
}
