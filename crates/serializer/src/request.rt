//! What is asked of an operation.
use json_doc::Pair;
use service_model::{Model, Operation};
use typed_value::Typed;
use uri_texts::Piece;

/// What is asked of an operation: the value, and the templates that its members fill.
#[derive(Clone, Copy)]
pub(crate) struct Request<'a> {
    pub(crate) model: &'a Model,
    pub(crate) op: &'a Operation,
    pub(crate) fields: &'a [Pair<Typed>],
    /// Of the path; `json` fills none.
    pub(crate) path: &'a [Piece],
    /// Of the host prefix.
    pub(crate) host: &'a [Piece],
}
