//! Objects that functions make.
ghost use Rattle.std.specs.Prelude.{◌≡◌, IsTrue, OnOk};
ghost use Rattle.json_doc.specs.declared.doc.Doc.TheVariants as doc;
ghost use Rattle.std.specs.Str.{chars};
ghost use Rattle.texts.specs.Ascii.{is_ascii_text};
ghost use Rattle.texts.specs.Keys.{put};

use json_doc::Doc;
use std::alloc::Global;
use texts::{OutOfMemory, Pairs, Text};

/// Puts a value at a key.
pub fn put(alloc: Global, pairs: &mut Pairs<Doc>, key: &str, value: Doc) -> Result<(), OutOfMemory>
    requires { IsTrue (is_ascii_text key.now) }
    ensures { OnOk result (pairs.new ≡ put pairs.old key.now value) }
{
    let mut name = Text::new(alloc);
    name.push_ascii(key)?;
    pairs.put(name, value)
}

/// Puts a text at a key.
pub fn put_text(
    alloc: Global,
    pairs: &mut Pairs<Doc>,
    key: &str,
    text: &str,
) -> Result<(), OutOfMemory>
    requires { IsTrue (is_ascii_text key.now) }
    ensures { OnOk result (pairs.new ≡ put pairs.old key.now (doc.Str (chars text.now))) }
{
    put(alloc, pairs, key, Doc::Str(Text::from_str(alloc, text)?))
}
