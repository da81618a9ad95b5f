//! JSON documents: the tree and its texts. What they are made of, texts, lists and pairs, comes along.
#![tactic(auto)]

mod brackets;
mod capped;
mod copied;
mod decimal;
mod decimal_parts;
mod decimal_sum;
mod decimal_text;
mod decimal_value;
mod doc;
mod document_text;
mod json_text;
mod layout;
mod number_token;
mod powers;
mod printer;
mod quoted;
mod read_fault;
mod read_fields;
mod read_laws;
mod read_marks;
mod read_value;
mod reader;
mod significand;
mod stop;
mod text_token;

pub use capped::capped_value;
pub use copied::copy;
pub use decimal::Decimal;
pub use doc::Doc;
pub use document_text::{compact, indented, push_compact};
pub use json_text::is_json_text;
pub use layout::Layout;
pub use quoted::push_quoted;
pub use read_fault::ReadFault;
pub use read_laws::{
    documents_are_json_texts, reading_is_grammar, reading_is_unique, texts_read_back,
    what_is_read_prints,
};
pub use read_marks::skip_blanks;
pub use reader::read;
pub use texts::{Bytes, List, OutOfMemory, Pair, Pairs, Text};
