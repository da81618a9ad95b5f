ghost use Rattle.std.specs.Prelude.{◌≡◌};
ghost use Rattle.out_format.specs.Cells.{cell_text};
ghost use Rattle.std.specs.Str.{chars};

use json_doc::Text;

/// A cell of a line of text or of a row of a table.
#[derive(Debug, Drop)]
pub enum Cell {
    Empty,
    /// The key of a column, or the key of the member in which the line stands.
    Key(Text),
    /// The text of a scalar.
    Value(Text),
}

impl Cell {
    pub(crate) fn as_str(&self) -> &str
        ensures { chars result.now ≡ cell_text self.now }
    {
        match self {
            Cell::Empty => "",
            Cell::Key(text) => text.as_str(),
            Cell::Value(text) => text.as_str(),
        }
    }
}
