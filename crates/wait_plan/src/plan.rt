//! A waiter's row with its queries read.
ghost use Rattle.std.specs.Prelude.{◌≡◌, length};

use jmes_syntax::Expr;
use json_doc::{Doc, List};
use model_files::State;

/// A waiter whose queries are read.
#[derive(Debug, Drop)]
pub struct WaitPlan {
    /// The states of the acceptors, in their order.
    pub states: List<State>,
    /// What each of them asks of a call.
    pub tests: List<Test>,
    /// How many seconds lie between two calls.
    pub delay: u32,
    /// How many calls there are at most.
    pub tries: u32,
    pub ghost as_many: { length states ≡ length tests },
}

/// What an acceptor asks of a call.
#[derive(Debug, Drop)]
pub struct Test {
    /// What the acceptor looks at.
    pub subject: Subject,
    /// What the subject is compared with.
    pub expected: Doc,
}

/// What an acceptor looks at.
#[derive(Debug, Drop)]
pub enum Subject {
    /// The value of a query on the reply.
    Path(Expr),
    /// All items of such a value.
    PathAll(Expr),
    /// Any item of such a value.
    PathAny(Expr),
    /// The status of the reply.
    Status,
    /// The code of an error.
    Error,
}
