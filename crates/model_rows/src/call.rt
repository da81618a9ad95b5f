use crate::{lines, models, values};
use json_doc::{OutOfMemory, Text};
use row_words::{unknown, words};
use std::alloc::Global;

/// The answer of a line.
pub fn answer(alloc: Global, line: &str) -> Result<Text, OutOfMemory> {
    match words(alloc, line)?.as_slice() {
        [call, words @ ..] if call.as_slice() == b"head".as_slice() => lines::command(alloc, words),
        [call, members, row, words @ ..] if call.as_slice() == b"line".as_slice() => {
            lines::line(alloc, members.as_slice(), row.as_slice(), words)
        }
        [call, text] => of_one(alloc, call.as_slice(), text.as_slice()),
        [call, first, second] => of_two(
            alloc,
            call.as_slice(),
            first.as_slice(),
            second.as_slice(),
        ),
        _ => unknown(alloc),
    }
}

fn of_one(alloc: Global, call: &[u8], text: &[u8]) -> Result<Text, OutOfMemory> {
    match call {
        b"arg-name" => lines::name(alloc, text),
        b"command-name" => models::command(alloc, text),
        b"waiters" => models::waiters_fault(alloc, text),
        b"paginators" => models::paginators_fault(alloc, text),
        b"model" => models::model_fault(alloc, text),
        b"metadata" => models::metadata(alloc, text),
        b"to-doc" => values::to_document(alloc, text),
        _ => unknown(alloc),
    }
}

fn of_two(alloc: Global, call: &[u8], first: &[u8], second: &[u8]) -> Result<Text, OutOfMemory> {
    match call {
        b"refusal" => models::refusal(alloc, first, second),
        b"operation" => models::operation(alloc, first, second),
        b"row" => models::row(alloc, first, second),
        b"waiter" => models::waiter(alloc, first, second),
        b"validate" => values::faults(alloc, first, second),
        b"table" => values::table(alloc, first, second),
        b"from-wire" => values::of_token(alloc, first, second),
        _ => unknown(alloc),
    }
}
