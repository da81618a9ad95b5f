//! Texts cut into their parts.
ghost use Rattle.std.specs.Prelude.{◌≡◌, ◌<◌, IfOk};
ghost use Rattle.std.specs.Str.{chars};
ghost use Rattle.texts.specs.Cut.{cut, cut_times, is_among};

use crate::marks::around_first;
use crate::{List, OutOfMemory, Text};
use std::alloc::Global;

/// The parts of a text between the marks.
pub fn cut(alloc: Global, text: &str, marks: &[char]) -> Result<List<Text>, OutOfMemory>
    ensures { IfOk result (λ parts. parts ≡ cut (is_among marks.now) (chars text.now)) }
{
    let mut parts = List::new(alloc);
    let mut part = Text::new(alloc);
    for c in text.chars() {
        if is_mark(c, marks) {
            parts.push(part)?;
            part = Text::new(alloc);
        } else {
            part.push(c)?;
        }
    }
    parts.push(part)?;
    Ok(parts)
}

/// The parts of a text, cut at so many of the first marks.
pub fn cut_times(
    alloc: Global,
    text: &str,
    mark: char,
    times: usize,
) -> Result<List<Text>, OutOfMemory>
    requires { mark < 128 }
    ensures { IfOk result (λ parts. parts ≡ cut_times mark times (chars text.now)) }
{
    let mut parts = List::new(alloc);
    let mut rest = text;
    let mut left = times;
    while left > 0 {
        let Some((part, behind)) = around_first(rest, mark) else {
            break;
        };
        parts.push(Text::from_str(alloc, part)?)?;
        rest = behind;
        left -= 1;
    }
    parts.push(Text::from_str(alloc, rest)?)?;
    Ok(parts)
}

fn is_mark(c: char, marks: &[char]) -> bool
    ensures { result ≡ is_among marks.now c }
{
    marks.iter().any(|mark| *mark == c)
}
