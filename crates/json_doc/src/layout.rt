/// How a document is laid out as text.
#[derive(Clone, Copy, Debug, PartialEq, Eq)]
pub enum Layout {
    /// On one line, in printable ASCII alone.
    Compact,
    /// Each item on a line of its own, four blanks a level.
    Indented,
}
