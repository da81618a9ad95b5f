ghost use Rattle.std.specs.Prelude.{◌≡◌, IsTrue, IfOk};
ghost use Rattle.texts.specs.Ascii.{is_ascii_text};

use std::alloc::Global;
use texts::{OutOfMemory, Text};

/// A text in ASCII.
pub fn literal(alloc: Global, text: &str) -> Result<Text, OutOfMemory>
    requires { IsTrue (is_ascii_text text.now) }
    ensures { IfOk result (λ made. made ≡ text.now) }
{
    let mut made = Text::new(alloc);
    made.push_ascii(text)?;
    Ok(made)
}
