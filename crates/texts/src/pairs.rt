ghost use Rattle.std.specs.Prelude.{◌≡◌, ◌<◌, ◌++◌, ◌∷◌, [], length, slice_set, IsTrue, IfNone, IfOk, IfSome, OnOk, OnErr};
ghost use Rattle.texts.specs.Ascii.{is_ascii_text};
ghost use Rattle.texts.specs.Keys.{keys, value_at, IsNew, IsDistinct, put};
ghost use Rattle.std.specs.Option.{option_copied};
ghost use Rattle.std.specs.Str.{chars};

use crate::{List, OutOfMemory, Text};
use std::alloc::Global;
use std::marker::Model;

/// A key and the value that stands at it.
#[derive(Debug, Drop)]
pub struct Pair<T> {
    pub key: Text,
    pub value: T,
}

/// A list of pairs whose keys are distinct, in the order in which the keys came.
#[derive(Debug, Drop)]
pub struct Pairs<T> {
    items: List<Pair<T>>,
}

impl<T> Model for Pairs<T> {
    ghost use Rattle.std.specs.Prelude.{List as Seq};
    ghost use Rattle.texts.specs.declared.pairs.Pair.{Pair};

    ghost Value = { Seq (Pair T) };

    ghost use Rattle.texts.specs.Keys.{keys, IsDistinct};

    ghost view = { λ pairs. pairs.items };

    ghost invariant = { λ pairs. IsDistinct (keys pairs.items) };
}

impl<T> Pairs<T> {
    /// No pairs, which takes no memory.
    pub fn new(alloc: Global) -> Pairs<T>
        ensures { result ≡ [] }
    {
        Pairs {
            items: List::new(alloc),
        }
    }

    /// No pairs, and room for this many.
    pub fn with_capacity(alloc: Global, capacity: usize) -> Result<Pairs<T>, OutOfMemory>
        ensures { IfOk result (λ pairs. pairs ≡ []) }
    {
        let items = Vec::with_capacity(alloc, capacity)?;
        Ok(Pairs {
            items: List::from_vec(items),
        })
    }

    /// The vector of the pairs, given back without taking memory.
    pub fn into_vec(self) -> Vec<Pair<T>>
        ensures same { result.items ≡ self }
        ensures distinct { IsDistinct (keys self) }
    {
        self.items.into_vec()
    }

    pub fn as_slice(&self) -> &[Pair<T>]
        ensures same { result.now ≡ self.now }
        ensures distinct { IsDistinct (keys self.now) }
    {
        self.items.as_slice()
    }

    pub fn len(&self) -> usize
        ensures { result ≡ length self.now }
    {
        self.items.len()
    }

    /// The value at a key.
    pub fn get(&self, key: &str) -> Option<&T>
        ensures value { option_copied result ≡ value_at (chars key.now) self.now }
        ensures ascii { IsTrue (is_ascii_text key.now) → option_copied result ≡ value_at key.now self.now }
    {
        self.find(key)
    }

    fn find(&self, key: &str) -> Option<&T>
        ensures { option_copied result ≡ value_at (chars key.now) self.now }
    {
        for pair in self.items.as_slice() {
            if pair.key.is(key) {
                return Some(&pair.value);
            }
        }
        None
    }
}

impl<T: Drop> Pairs<T> {
    /// Puts a pair at the end, whose key is a new one.
    pub fn push_new(&mut self, key: Text, value: T) -> Result<(), OutOfMemory>
        requires { IsNew key (keys self.old) }
        ensures ok { OnOk result (self.new ≡ self.old ++ record { key = key; value = value } ∷ []) }
        ensures err { OnErr result (self.new ≡ self.old) }
    {
        self.items.push(Pair { key, value })?;
        Ok(())
    }

    /// Puts a value at a key: in the old one's place, or at the end where the key is new.
    pub fn put(&mut self, key: Text, value: T) -> Result<(), OutOfMemory>
        ensures ok { OnOk result (self.new ≡ put self.old key value) }
        ensures err { OnErr result (self.new ≡ self.old) }
    {
        match place_of(self.items.as_slice(), &key) {
            Some(at) => self.items.set(at, Pair { key, value }),
            None => self.items.push(Pair { key, value })?,
        }
        Ok(())
    }
}

/// Where the key stands.
fn place_of<T>(pairs: &[Pair<T>], key: &Text) -> Option<usize>
    ensures within { IfSome result (λ at. at < length pairs.now) }
    ensures found { IfSome result (λ at. (v : T) →
        put pairs.now key.now v ≡ slice_set pairs.now at (record { key = key.now; value = v })) }
    ensures none { IfNone result ((v : T) →
        put pairs.now key.now v ≡ pairs.now ++ record { key = key.now; value = v } ∷ []) }
{
    for (at, pair) in pairs.iter().enumerate() {
        if pair.key == *key {
            return Some(at);
        }
    }
    None
}
