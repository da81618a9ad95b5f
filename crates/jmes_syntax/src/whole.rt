/// A whole number: its sign and its size. The parser gives those within `i64`, and zero without a
/// sign.
#[derive(Clone, Copy, Debug, PartialEq, Eq)]
pub struct Whole {
    pub is_negative: bool,
    pub magnitude: u64,
}
