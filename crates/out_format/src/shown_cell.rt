ghost use Rattle.std.specs.Prelude.{◌≡◌, map, IfOk};
ghost use Rattle.std.specs.Str.{chars};
ghost use Rattle.out_format.specs.Sections.{shown_character, shown, width};

use crate::cell::Cell;
use json_doc::{OutOfMemory, Text};
use std::alloc::Global;
use std::marker::Model;
use unicode_width::UnicodeWidthStr;

/// The text of a cell as a table shows it, with blanks in place of control characters. Contracts see
/// the text; its width in columns of a terminal is measured once.
#[derive(Debug, Drop)]
pub(crate) struct ShownCell {
    text: Text,
    width: usize,
}

impl Model for ShownCell {
    ghost use Rattle.std.specs.Prelude.{◌≡◌, false, List, ℕ};
    ghost use Rattle.unicode_width.specs.Width.{str_width};

    ghost Value = { List ℕ };

    ghost view = { λ cell. cell.text };

    ghost invariant = { λ cell. cell.width ≡ str_width false cell.text };
}

impl ShownCell {
    pub(crate) fn of(alloc: Global, cell: &Cell) -> Result<ShownCell, OutOfMemory>
        ensures { IfOk result (λ made. made ≡ shown cell.now) }
    {
        let text = shown_text(alloc, cell.as_str())?;
        let width = text.as_str().width();
        Ok(ShownCell { text, width })
    }

    pub(crate) fn as_str(&self) -> &str
        ensures { chars result.now ≡ self.now }
    {
        self.text.as_str()
    }

    pub(crate) fn width(&self) -> usize
        ensures { result ≡ width self.now }
    {
        self.width
    }
}

fn shown_text(alloc: Global, text: &str) -> Result<Text, OutOfMemory>
    ensures { IfOk result (λ made. made ≡ map shown_character (chars text.now)) }
{
    let mut made = Text::new(alloc);
    for c in text.chars() {
        made.push(shown_character(c))?;
    }
    Ok(made)
}

fn shown_character(c: char) -> char
    ensures { result ≡ shown_character c }
{
    if c < ' ' || c == '\u{7f}' { ' ' } else { c }
}
