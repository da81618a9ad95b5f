use crate::{Function, Whole};
use json_doc::{Doc, List, Pair, Text};

/// A JMESPath expression, from the loosest of its operators.
#[derive(Debug, Drop)]
pub enum Expr {
    /// `a | b`, two or more: each is applied to what the one before it gives.
    Pipe(List<Expr>),
    /// `a || b`, two or more.
    Or(List<Expr>),
    /// `a && b`, two or more.
    And(List<Expr>),
    /// `a < b == c`: a first operand and one or more comparisons, grouped from the left.
    Compare(Operand<Expr>, List<Compared<Expr>>),
    /// `!a`, or a chain alone.
    Operand(Operand<Expr>),
}

/// A comparison's sign and the operand on its right.
#[derive(Debug, Drop)]
pub struct Compared<T> {
    pub comparator: Comparator,
    pub right: Operand<T>,
}

/// The comparators `==`, `!=`, `<`, `<=`, `>` and `>=`.
#[derive(Clone, Copy, Debug, PartialEq, Eq)]
pub enum Comparator {
    Equal,
    NotEqual,
    Less,
    LessOrEqual,
    Greater,
    GreaterOrEqual,
}

/// A chain behind so many `!`, perhaps none.
#[derive(Debug, Drop)]
pub struct Operand<T> {
    pub negations: u64,
    pub chain: Chain<T>,
}

/// Steps from left to right, cut at each flatten `[]`: those before the first one, and those behind
/// each one up to the next. So `a.b[][0].c[]` has the segments `a.b`, `[0].c` and one without steps.
#[derive(Debug, Drop)]
pub struct Chain<T> {
    pub first: List<Step<T>>,
    pub flattened: List<List<Step<T>>>,
}

/// A part of a chain. `Values`, `Elements`, `Slice` and `FilterProjection` are projections: the rest of
/// their segment is applied to each element.
#[derive(Debug, Drop)]
pub enum Step<T> {
    /// `@`, the current node.
    Current,
    /// A literal in backticks or a raw text in quotes.
    Literal(Doc),
    /// A name, quoted or not.
    Field(Text),
    /// `(e)`
    Group(T),
    /// `[e, e]`, a multi-select list of one or more.
    List(List<T>),
    /// `{k: e, k: e}`, a multi-select hash of one or more. A key may come again.
    Hash(List<Pair<T>>),
    /// `f(e, &e)`; the number of arguments is one that the function takes.
    Call(Function, List<Argument<T>>),
    /// `[n]`
    Index(Whole),
    /// `*`, the values of an object.
    Values,
    /// `[*]`, the elements of a list.
    Elements,
    /// `[start:stop:step]`
    Slice(Slice),
    /// `[?e]`
    FilterProjection(T),
}

/// The elements from `start` to before `stop`, counted as in Python. A part that isn't written is
/// `None`, and the step then 1. The parser gives no step of 0.
#[derive(Clone, Copy, Debug, PartialEq, Eq)]
pub struct Slice {
    pub start: Option<Whole>,
    pub stop: Option<Whole>,
    pub step: Whole,
}

/// An argument of a function: an expression, or an expref `&e` to one.
#[derive(Debug, Drop)]
pub enum Argument<T> {
    Value(T),
    Expref(T),
}
