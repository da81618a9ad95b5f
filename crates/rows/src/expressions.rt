//! Expressions of queries and their trees.
use jmes_syntax::{Expr, is_path, parse};
use json_doc::{OutOfMemory, Text};
use row_words::{text_of, told};
use std::alloc::Global;

/// How the text of a tree is made shorter: the left text is written as the right one, in this order.
/// So `<[..]>` is a chain, `!2<[..]>` one behind two `!`, and what is behind ` / ` its segments.
const SHORT: [(&str, &str); 23] = [
    ("List { items: [", "["),
    ("] }", "]"),
    ("Text { inner: ", ""),
    ("\" }", "\""),
    ("Operand { negations: ", "!"),
    (", chain: Chain { first: ", "<"),
    (", flattened: [] } }", ">"),
    (", flattened: ", " / "),
    ("] } }", "]>"),
    ("Operand(", ""),
    (">)", ">"),
    ("!0<", "<"),
    ("Whole { is_negative: false, magnitude: ", "+"),
    ("Whole { is_negative: true, magnitude: ", "-"),
    ("Decimal { is_negative: false, magnitude: ", ""),
    (", scale: 0 }", ""),
    ("Pair { key: ", ""),
    (", value: ", ": "),
    ("Compared { comparator: ", ""),
    (", right: ", " "),
    ("> }", ">"),
    (" })", ")"),
    (" },", ","),
];

/// The tree of an expression in short, or why the text is none.
pub fn tree_of(alloc: Global, text: &[u8]) -> Result<Text, OutOfMemory> {
    match parse(alloc, &text_of(alloc, text)?) {
        Ok(expr) => short(alloc, &expr),
        Err(fault) => told(alloc, &fault),
    }
}

/// Whether a text is an expression, without its tree.
pub fn is_read(alloc: Global, text: &[u8]) -> Result<Text, OutOfMemory> {
    match parse(alloc, &text_of(alloc, text)?) {
        Ok(_) => Text::from_str(alloc, "an expression"),
        Err(fault) => told(alloc, &fault),
    }
}

/// Whether an expression is a chain of names.
pub fn is_chain(alloc: Global, text: &[u8]) -> Result<Text, OutOfMemory> {
    match parse(alloc, &text_of(alloc, text)?) {
        Ok(expr) if is_path(&expr) => Text::from_str(alloc, "a path"),
        Ok(_) => Text::from_str(alloc, "no path"),
        Err(fault) => told(alloc, &fault),
    }
}

fn short(alloc: Global, expr: &Expr) -> Result<Text, OutOfMemory> {
    let mut text = format!(in alloc; "{expr:?}")?;
    for (old, new) in SHORT {
        text = rewritten(alloc, text.as_str(), old, new)?;
    }
    Ok(Text::from_string(text))
}

/// The text with each of these parts written otherwise.
fn rewritten(alloc: Global, text: &str, old: &str, new: &str) -> Result<String, OutOfMemory> {
    let mut made = String::new(alloc);
    let mut is_first = true;
    for part in text.split(old) {
        if !is_first {
            made.push_str(new)?;
        }
        is_first = false;
        made.push_str(part)?;
    }
    Ok(made)
}
