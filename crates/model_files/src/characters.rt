//! Texts as characters.
ghost use Rattle.std.specs.Prelude.{◌≡◌, IfOk};

use json_doc::{OutOfMemory, Text};
use std::alloc::Global;

/// The characters of a text.
pub fn chars_of(alloc: Global, text: &Text) -> Result<Vec<char>, OutOfMemory>
    ensures { IfOk result (λ chars. chars.items ≡ text.now) }
{
    let chars = text.as_str().chars().collect(alloc)?;
    Ok(chars)
}

/// The text of these characters.
pub fn text_of(alloc: Global, chars: &[char]) -> Result<Text, OutOfMemory>
    ensures { IfOk result (λ made. made ≡ chars.now) }
{
    let mut text = Text::new(alloc);
    for c in chars {
        text.push(*c)?;
    }
    Ok(text)
}
