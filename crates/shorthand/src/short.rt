use texts::{List, Pairs, Text};

/// What a shorthand text stands for.
#[derive(Debug, Drop)]
pub enum Short {
    /// A value in quotes or without, as the text that it stands for.
    Word(Text),
    /// The values of a list.
    Items(List<Short>),
    /// Keys and their values, whose keys are distinct.
    Fields(Pairs<Short>),
}
