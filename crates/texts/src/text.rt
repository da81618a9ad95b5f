ghost use Rattle.std.specs.Prelude.{◌≡◌, ◌↔◌, [], ◌∷◌, ◌++◌, IsTrue, IfOk, OnOk, OnErr, Some};
ghost use Rattle.std.specs.Str.{bytes_eq, chars};
ghost use Rattle.std.specs.String.{string_bytes};
ghost use Rattle.std.specs.Prelude.{nat_eq, encode_utf8_all};
ghost use Rattle.std.specs.Cmp.{partial_equiv_from_equiv};
ghost use Rattle.std.specs.Cmp.Lexicographic.{pointwise, nat_list_eq_equiv};
ghost use Rattle.std.specs.Cmp.Rules.{hashing};
ghost use Rattle.texts.specs.Ascii.{is_ascii_text};
ghost use Rattle.std.specs.Hash as fed;
ghost use Rattle.std.proofs.Common.{rules};

use crate::{Bytes, OutOfMemory};
use std::alloc::Global;
use std::fmt;
use std::hash::{Hash, Hasher};
use std::marker::Model;

/// A text in UTF-8 that contracts see as the list of its characters.
#[derive(Debug, Drop)]
pub struct Text {
    inner: String,
}

impl Model for Text {
    ghost use Rattle.std.specs.Prelude.{List, ℕ};
    ghost use Rattle.std.specs.Str.{bytes_eq, chars};
    ghost use Rattle.std.specs.String.{string_bytes};

    ghost Value = { List ℕ };

    ghost view = { λ text. chars (string_bytes text.inner) };
}

impl Text {
    /// The empty text, which takes no memory.
    pub fn new(alloc: Global) -> Text
        ensures { result ≡ [] }
    {
        Text {
            inner: String::new(alloc),
        }
    }

    /// The text of a string; it takes no memory.
    pub fn from_string(inner: String) -> Text
        ensures { result ≡ chars (string_bytes inner) }
    {
        Text { inner }
    }

    /// The string of the text, given back without taking memory.
    pub fn into_string(self) -> String
        ensures { chars (string_bytes result) ≡ self }
    {
        self.inner
    }

    pub fn from_str(alloc: Global, text: &str) -> Result<Text, OutOfMemory>
        ensures { IfOk result (λ made. made ≡ chars text.now) }
    {
        let inner = String::from_str(alloc, text)?;
        Ok(Text { inner })
    }

    pub fn as_str(&self) -> &str
        ensures value { chars result.now ≡ self.now }
        ensures bytes { result.now ≡ encode_utf8_all self.now }
    {
        self.inner.as_str()
    }

    pub fn is_empty(&self) -> bool
        ensures { IsTrue result ↔ (self.now ≡ []) }
    {
        self.as_str().is_empty()
    }

    /// Whether this is that text.
    pub fn is(&self, text: &str) -> bool
        ensures value { result ≡ bytes_eq self.now (chars text.now) }
        ensures ascii { IsTrue (is_ascii_text text.now) → result ≡ bytes_eq self.now text.now }
    {
        self.as_str() == text
    }

    pub fn push(&mut self, c: char) -> Result<(), OutOfMemory>
        ensures ok { OnOk result (self.new ≡ self.old ++ c ∷ []) }
        ensures err { OnErr result (self.new ≡ self.old) }
    {
        self.inner.push(c)?;
        Ok(())
    }

    pub fn push_str(&mut self, more: &str) -> Result<(), OutOfMemory>
        ensures ok { OnOk result (self.new ≡ self.old ++ chars more.now) }
        ensures err { OnErr result (self.new ≡ self.old) }
    {
        self.inner.push_str(more)?;
        Ok(())
    }

    /// Puts a text in ASCII at the end, such as a literal.
    pub fn push_ascii(&mut self, more: &str) -> Result<(), OutOfMemory>
        requires { IsTrue (is_ascii_text more.now) }
        ensures ok { OnOk result (self.new ≡ self.old ++ more.now) }
        ensures err { OnErr result (self.new ≡ self.old) }
    {
        self.push_str(more)?;
        Ok(())
    }

    /// The bytes of the text, given out without taking memory.
    pub fn into_bytes(self) -> Bytes
        ensures { result ≡ encode_utf8_all self }
    {
        Bytes::from_vec(self.inner.into_bytes())
    }

    /// An equal text.
    pub fn copy(&self, alloc: Global) -> Result<Text, OutOfMemory>
        ensures { IfOk result (λ made. made ≡ self.now) }
    {
        Text::from_str(alloc, self.as_str())
    }
}

impl fmt::Display for Text {
    ghost output = { λ text. Some (encode_utf8_all text) };

    fn fmt<W: fmt::Write>(&self, f: &mut fmt::Formatter<W>) -> fmt::Result {
        f.write_str(self.as_str())
    }
}

impl PartialEq for Text {
    ghost eq = { pointwise nat_eq };

    ghost laws = { partial_equiv_from_equiv nat_list_eq_equiv };

    fn eq(&self, other: &Text) -> bool {
        self.inner.as_str() == other.inner.as_str()
    }
}

impl Eq for Text {
    ghost laws = { nat_list_eq_equiv };
}

impl Hash for Text {
    ghost hash_input = { λ text. fed.str (encode_utf8_all text) };

    ghost respects_eq = { Prim.search (hashing, rules) };

    fn hash<H: Hasher>(&self, state: &mut H) {
        self.inner.as_str().hash(state);
    }
}
