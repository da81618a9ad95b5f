use json_doc::{Bytes, Decimal, Doc, List, Pairs, Text};

/// A value of a shape. Which shape it fits is not said here.
#[derive(Debug, Drop)]
pub enum Typed {
    Null,
    Text(Text),
    Int(i64),
    Number(Decimal),
    Flag(bool),
    Blob(Bytes),
    /// Microseconds since 1970.
    Moment(i64),
    Items(List<Typed>),
    /// The members of a structure, or the entries of a map.
    Fields(Pairs<Typed>),
    /// A document, for a document shape or a header that holds one.
    Any(Doc),
}

/// The members of a structure or the entries of a map: a list of keys and values whose keys are
/// distinct.
pub type Entries = Pairs<Typed>;
