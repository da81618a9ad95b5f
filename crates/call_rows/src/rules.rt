//! The rules of retries: classes of outcomes, decisions and pauses.
use aws_world::{LinkFault, Reply};
use call_retry::{Class, Decision, Retry, class_of};
use http_exchange::Outcome;
use json_doc::{Bytes, List, OutOfMemory, Text};
use resp_parser::ServiceError;
use row_words::text_of;
use std::alloc::Global;

/// The class of an outcome: `connect`, `timeout`, `broken`, `cut`, `malformed`, `too-large`, or a status with the code
/// of an error, where there is one.
pub fn class(alloc: Global, words: &[Vec<u8>]) -> Result<Text, OutOfMemory> {
    let [outcome, code] = words else {
        return Text::from_str(alloc, "no outcome");
    };
    let code = text_of(alloc, code.as_slice())?;
    let outcome = text_of(alloc, outcome.as_slice())?;
    let class = match outcome.as_str() {
        "connect" => class_of(&Outcome::Lost(LinkFault::Connect), None),
        "timeout" => class_of(&Outcome::Lost(LinkFault::Timeout), None),
        "broken" => class_of(&Outcome::Lost(LinkFault::Broken), None),
        "cut" => class_of(&Outcome::Cut, None),
        "malformed" => class_of(&Outcome::Malformed, None),
        "too-large" => class_of(&Outcome::TooLarge, None),
        status => class_of_status(alloc, status.parse::<u16>().unwrap_or(0), code),
    };
    class_text(alloc, class)
}

fn class_of_status(alloc: Global, status: u16, code: Text) -> Class {
    let outcome = Outcome::Whole(Reply {
        status,
        headers: List::new(alloc),
        body: Bytes::new(alloc),
    });
    if code.is_empty() {
        return class_of(&outcome, None);
    }
    let error = ServiceError {
        code,
        message: Text::new(alloc),
        status,
        retries: None,
    };
    class_of(&outcome, Some(&error))
}

fn class_text(alloc: Global, class: Class) -> Result<Text, OutOfMemory> {
    let text = match class {
        Class::Good => format!(in alloc; "Good")?,
        Class::Final => format!(in alloc; "Final")?,
        Class::Again(cost) => format!(in alloc; "Again({cost})")?,
    };
    Ok(Text::from_string(text))
}

/// Whether another attempt follows one that costs so much: by the cost, the attempt, the limit and what is left.
pub fn decision(alloc: Global, words: &[Vec<u8>]) -> Result<Text, OutOfMemory> {
    let [cost, attempt, limit, left] = words else {
        return Text::from_str(alloc, "no decision");
    };
    let class = match text_of(alloc, cost.as_slice())?.as_str() {
        "good" => Class::Good,
        "final" => Class::Final,
        cost => Class::Again(cost.parse::<u16>().unwrap_or(0)),
    };
    let attempt = number(alloc, attempt.as_slice())?;
    let limit = number(alloc, limit.as_slice())?;
    let left = u16::try_from(number(alloc, left.as_slice())?).unwrap_or(0);
    let text = match Retry::decide(class, attempt, limit, left) {
        Decision::End => format!(in alloc; "End")?,
        Decision::Again(cost) => format!(in alloc; "Again({cost})")?,
    };
    Ok(Text::from_string(text))
}

/// The pause after an attempt, by its number and a word.
pub fn pause(alloc: Global, words: &[Vec<u8>]) -> Result<Text, OutOfMemory> {
    let [attempt, word] = words else {
        return Text::from_str(alloc, "no attempt");
    };
    let attempt = number(alloc, attempt.as_slice())?;
    if attempt == 0 {
        return Text::from_str(alloc, "attempts are counted from 1");
    }
    let pause = Retry::backoff(attempt, number(alloc, word.as_slice())?);
    Ok(Text::from_string(format!(in alloc; "{pause}")?))
}

fn number(alloc: Global, word: &[u8]) -> Result<u32, OutOfMemory> {
    Ok(text_of(alloc, word)?.as_str().parse::<u32>().unwrap_or(0))
}
