use crate::begun::Group;
use crate::fields::FieldTable;
use crate::stack::Stack;
use texts::Text;

/// What a value without quotes is so far.
#[derive(Clone, Copy)]
pub enum Run {
    /// It may still be the key of a pair.
    Key,
    Plain,
    /// A backslash stands behind it.
    Backslash,
}

/// What is read.
#[derive(Drop)]
pub enum Place {
    /// A key, whose front is given, behind these pairs; spaces may stand before it where that is told.
    Key(FieldTable, Text, bool),
    /// What stands behind the mark that opens: `=` or `[`.
    First(Group),
    /// What stands behind a comma.
    Next(Group),
    /// A value without quotes, of which this is read.
    Bare(Group, Text, Run),
    /// A value in this quote, of which this is read; a backslash may stand behind it.
    Quoted(Group, char, Text, bool),
    /// What stands behind a value.
    Behind(Group),
}

/// What is read, and what is open around it.
#[derive(Drop)]
pub struct Reader {
    pub outer: Stack,
    pub place: Place,
}
