use crate::{Decimal, List, Pairs, Text};

/// A JSON document (RFC 8259). An object is a list of pairs with distinct keys.
#[derive(Debug, Drop)]
pub enum Doc {
    Null,
    Flag(bool),
    Number(Decimal),
    Str(Text),
    Items(List<Doc>),
    Fields(Pairs<Doc>),
}
