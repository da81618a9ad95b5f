//! Templates: texts with labels in braces.
ghost use Rattle.std.specs.Prelude.{◌≡◌, ◌++◌, IfOk, OnOk};
ghost use Rattle.std.specs.Str.{chars};
ghost use Rattle.uri_texts.specs.Templates.{pieces, pieces_behind, label};

use std::alloc::Global;
use texts::{List, OutOfMemory, Text, around_first, cut, without_last};

/// A piece of a template.
#[derive(Debug, Drop)]
pub enum Piece {
    Plain(Text),
    /// A label by its name; it is greedy where a `+` stands behind the name, and keeps slashes then.
    Label(Text, bool),
}

/// The pieces of a template. A brace without its partner is text, and no label holds another brace that
/// opens.
pub fn pieces(alloc: Global, template: &Text) -> Result<List<Piece>, OutOfMemory>
    ensures { IfOk result (λ made. made ≡ pieces template.now) }
{
    let parts = cut(alloc, template.as_str(), &['{'])?;
    let mut made = List::new(alloc);
    let Some((text, others)) = parts.as_slice().split_first() else {
        return Ok(made);
    };
    made.push(Piece::Plain(text.copy(alloc)?))?;
    for part in others {
        push_behind(alloc, &mut made, part.as_str())?;
    }
    Ok(made)
}

/// Puts the pieces of what stands behind a brace that opens, up to the next one.
fn push_behind(alloc: Global, made: &mut List<Piece>, part: &str) -> Result<(), OutOfMemory>
    ensures { OnOk result (made.new ≡ made.old ++ pieces_behind (chars part.now)) }
{
    match around_first(part, '}') {
        Some((name, text)) => {
            made.push(label(alloc, name)?)?;
            made.push(Piece::Plain(Text::from_str(alloc, text)?))
        }
        None => {
            let mut text = Text::new(alloc);
            text.push('{')?;
            text.push_str(part)?;
            made.push(Piece::Plain(text))
        }
    }
}

/// A label by what stands in its braces.
fn label(alloc: Global, name: &str) -> Result<Piece, OutOfMemory>
    ensures { IfOk result (λ piece. piece ≡ label (chars name.now)) }
{
    match without_last(name, '+') {
        Some(front) => Ok(Piece::Label(Text::from_str(alloc, front)?, true)),
        None => Ok(Piece::Label(Text::from_str(alloc, name)?, false)),
    }
}
