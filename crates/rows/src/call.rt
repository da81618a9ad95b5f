use crate::{documents, expressions, formats, queries, settings, signing};
use json_doc::{OutOfMemory, Text};
use row_words::{unknown, words};
use std::alloc::Global;

/// The answer of a line.
pub fn answer(alloc: Global, line: &str) -> Result<Text, OutOfMemory> {
    match words(alloc, line)?.as_slice() {
        [call, text] => of_one(alloc, call.as_slice(), text.as_slice()),
        [call, first, second] => of_two(
            alloc,
            call.as_slice(),
            first.as_slice(),
            second.as_slice(),
        ),
        [call, path, document, value] if call.as_slice() == b"set".as_slice() => queries::after_set(
            alloc,
            path.as_slice(),
            document.as_slice(),
            value.as_slice(),
        ),
        [call, config, credentials, variables, options]
            if call.as_slice() == b"settings".as_slice() => {
            settings::settings(
                alloc,
                config.as_slice(),
                credentials.as_slice(),
                variables.as_slice(),
                options.as_slice(),
            )
        }
        [call, words @ ..] if call.as_slice() == b"sign".as_slice() => {
            signing::signed_headers(alloc, words)
        }
        _ => unknown(alloc),
    }
}

fn of_one(alloc: Global, call: &[u8], text: &[u8]) -> Result<Text, OutOfMemory> {
    match call {
        b"read" => documents::compact_of(alloc, text),
        b"lines" => documents::lines_of(alloc, text),
        b"is-json" => documents::is_json(alloc, text),
        b"print-json" => formats::json_of(alloc, text),
        b"print-text" => formats::text_of(alloc, text),
        b"parse" => expressions::tree_of(alloc, text),
        b"is-read" => expressions::is_read(alloc, text),
        b"is-path" => expressions::is_chain(alloc, text),
        b"settings-paths" => settings::paths(alloc, text),
        _ => unknown(alloc),
    }
}

fn of_two(alloc: Global, call: &[u8], first: &[u8], second: &[u8]) -> Result<Text, OutOfMemory> {
    match call {
        b"print-table" => formats::table_of(alloc, first, second),
        b"query" => queries::found(alloc, first, second),
        b"hmac" => signing::keyed_hash(alloc, first, second),
        b"sections" => settings::sections(alloc, first, second),
        _ => unknown(alloc),
    }
}
