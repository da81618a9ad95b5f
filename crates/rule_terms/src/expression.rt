use crate::function::Function;
use json_doc::Doc;
use texts::{List, Text};

/// What an argument says.
#[derive(Debug, Drop)]
pub enum Expression {
    /// Null, a truth value or a number.
    Literal(Doc),
    /// A text with names between braces, perhaps none.
    Template(Text),
    /// What stands under a name: that of a parameter, or one that a condition assigned.
    Reference(Text),
    Call(Function, List<Expression>),
}
