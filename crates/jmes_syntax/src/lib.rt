//! JMESPath expressions: their trees, their grammar and the parser.
#![tactic(auto)]

mod brackets;
mod chains;
mod delimited;
mod expr;
mod function;
mod laws;
mod lexer;
mod literals;
mod marks;
mod numbers;
mod parse_fault;
mod parser;
mod path;
mod reader;
mod stop;
mod token;
mod whole;
mod words;

pub use expr::{Argument, Chain, Comparator, Compared, Expr, Operand, Slice, Step};
pub use function::{Arity, Function, Parameter};
pub use laws::{function_is_named, parsing_has_outcome, parsing_is_unique, reading_is_grammar};
pub use parse_fault::ParseFault;
pub use parser::parse;
pub use path::is_path;
pub use whole::Whole;
