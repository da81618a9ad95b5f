ghost use Rattle.std.specs.Prelude.{◌≡◌, ◌==◌, ◌&&◌, IfOk};
ghost use Rattle.std.specs.Str.{chars};
ghost use Rattle.sigv4.specs.Headers.{canonical_value, lowered};

use std::alloc::Global;
use texts::{OutOfMemory, Text, trimmed};

/// A name in small letters.
pub fn lowered(alloc: Global, name: &str) -> Result<Text, OutOfMemory>
    ensures { IfOk result (λ name'. name' ≡ lowered (chars name.now)) }
{
    let mut made = Text::new(alloc);
    for c in name.chars() {
        made.push(c.to_ascii_lowercase())?;
    }
    Ok(made)
}

/// A value as it is signed: trimmed, with one space for each run of spaces.
pub fn canonical_value(alloc: Global, value: &str) -> Result<Text, OutOfMemory>
    ensures { IfOk result (λ made. made ≡ canonical_value (chars value.now)) }
{
    let mut made = Text::new(alloc);
    let mut behind_space = false;
    for c in trimmed(value).chars() {
        if repeats_space(behind_space, c) {
            continue;
        }
        made.push(c)?;
        behind_space = c == ' ';
    }
    Ok(made)
}

/// Whether a character is a space behind a space.
fn repeats_space(behind_space: bool, c: char) -> bool
    ensures { result ≡ (behind_space && (c == 32)) }
{
    behind_space && c == ' '
}
