ghost use Rattle.std.specs.Prelude.{◌≡◌, ◌++◌, IsTrue, IfOk, OnOk, [], ◌∷◌};
ghost use Rattle.texts.specs.Ascii.{is_ascii_text};
ghost use Rattle.sha2.specs.Sha256.{sha256};
ghost use Rattle.hex.specs.Hex.{encode_lower};
ghost use Rattle.texts.specs.Joined.{joined};

use sha2::{Digest, Sha256};
use std::alloc::Global;
use texts::{List, OutOfMemory, Text};

/// Puts the texts with a mark between each two.
pub fn push_joined(out: &mut Text, mark: &str, texts: &[Text]) -> Result<(), OutOfMemory>
    requires { IsTrue (is_ascii_text mark.now) }
    ensures { OnOk result (out.new ≡ out.old ++ joined mark.now texts.now) }
{
    let mut before = "";
    for text in texts {
        out.push_ascii(before)?;
        out.push_str(text.as_str())?;
        before = mark;
    }
    Ok(())
}

/// Puts bytes in hex, in small letters.
pub fn push_hex(alloc: Global, out: &mut Text, bytes: &[u8]) -> Result<(), OutOfMemory>
    ensures { OnOk result (out.new ≡ out.old ++ encode_lower bytes.now) }
{
    let digits = hex::encode(alloc, bytes)?;
    out.push_str(digits.as_str())
}

/// Puts the hash of bytes in hex.
pub fn push_hash(alloc: Global, out: &mut Text, bytes: &[u8]) -> Result<(), OutOfMemory>
    ensures { OnOk result (out.new ≡ out.old ++ encode_lower (sha256 bytes.now)) }
{
    push_hex(alloc, out, Sha256::digest(bytes).as_slice())
}

/// Puts a header with a name in ASCII behind the others.
pub fn push_header(
    alloc: Global,
    headers: &mut List<(Text, Text)>,
    name: &str,
    value: Text,
) -> Result<(), OutOfMemory>
    requires { IsTrue (is_ascii_text name.now) }
    ensures { OnOk result (headers.new ≡ headers.old ++ (name.now, value) ∷ []) }
{
    let mut key = Text::new(alloc);
    key.push_ascii(name)?;
    headers.push((key, value))
}

/// Puts copies of pairs.
pub fn push_pairs(
    alloc: Global,
    out: &mut List<(Text, Text)>,
    pairs: &[(Text, Text)],
) -> Result<(), OutOfMemory>
    ensures { OnOk result (out.new ≡ out.old ++ pairs.now) }
{
    for (name, value) in pairs {
        out.push((name.copy(alloc)?, value.copy(alloc)?))?;
    }
    Ok(())
}

/// An equal list of pairs.
pub fn copy_pairs(alloc: Global, pairs: &[(Text, Text)]) -> Result<List<(Text, Text)>, OutOfMemory>
    ensures { IfOk result (λ made. made ≡ pairs.now) }
{
    let mut made = List::new(alloc);
    push_pairs(alloc, &mut made, pairs)?;
    Ok(made)
}
