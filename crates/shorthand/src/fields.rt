ghost use Rattle.std.specs.Prelude.{◌≡◌, [], IfOk};
ghost use Rattle.texts.specs.Keys.{put};
ghost use Rattle.shorthand.specs.Reading.{has_key};

use crate::Short;
use indexmap::IndexMap;
use std::alloc::Global;
use std::marker::Model;
use texts::{OutOfMemory, Pairs, Text};

/// The pairs of a text that is being read, under a table of their keys.
#[derive(Drop)]
pub struct FieldTable {
    map: IndexMap<Text, Short>,
}

impl Model for FieldTable {
    ghost use Rattle.std.specs.Prelude.{List as Seq};
    ghost use Rattle.texts.specs.declared.pairs.Pair.{Pair};
    ghost use Rattle.shorthand.specs.declared.short.Short.{Short};
    ghost use Rattle.shorthand.specs.Table.{pairs_of};
    ghost use Rattle.shorthand.specs.contracts.short.Short as short;
    ghost use Rattle.std.specs.Coded.{codes};

    ghost Value = { Seq (Pair Short) };

    ghost coded = { Prim.hlevel (codes, short.the_row.coded) };

    ghost view = { λ table. pairs_of table.map.entries };
}

impl FieldTable {
    /// No pairs, which takes no memory.
    pub fn new(alloc: Global) -> FieldTable
        ensures { result ≡ [] }
    {
        FieldTable {
            map: IndexMap::new(alloc),
        }
    }

    pub fn has(&self, key: &Text) -> bool
        ensures { result ≡ has_key key.now self.now }
    {
        self.map.contains_key(key)
    }

    /// The pairs with one more; a pair with the same key is replaced in its place.
    pub fn with(self, key: Text, value: Short) -> Result<FieldTable, OutOfMemory>
        ensures { IfOk result (λ table. table ≡ put self key value) }
    {
        let mut map = self.map;
        map.insert(key, value)?;
        Ok(FieldTable { map })
    }

    pub fn into_pairs(self, alloc: Global) -> Result<Pairs<Short>, OutOfMemory>
        ensures { IfOk result (λ pairs. pairs ≡ self) }
    {
        let mut pairs = Pairs::with_capacity(alloc, self.map.len())?;
        for (key, value) in self.map {
            pairs.push_new(key, value)?;
        }
        Ok(pairs)
    }
}
