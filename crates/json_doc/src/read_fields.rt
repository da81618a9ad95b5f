ghost use Rattle.std.specs.Prelude.{◌≡◌, [], IfOk, OnOk};
ghost use Rattle.texts.specs.Keys.{keys, IsDistinct, put};
ghost use Rattle.json_doc.specs.Gathered.{pairs_of, kept};

use crate::{Doc, OutOfMemory, Pair, Pairs, Text};
use indexmap::IndexMap;
use std::alloc::Global;

/// How many fields are looked through one by one for a key.
const FEW: usize = 16;

/// The fields of an object that is being read: few in a list, more under a table of their keys.
#[derive(Drop)]
pub enum Gathered {
    Few(Pairs<Doc>),
    Many(IndexMap<Text, Doc>),
}

/// The fields after the key got this value: in its old place, or at the end where it is new.
pub fn with_field(
    alloc: Global,
    fields: Gathered,
    key: Text,
    value: Doc,
) -> Result<Gathered, OutOfMemory>
    ensures { IfOk result (λ more. kept more ≡ put (kept fields) key value) }
{
    let mut map = match fields {
        Gathered::Few(mut pairs) => {
            if pairs.len() < FEW {
                pairs.put(key, value)?;
                return Ok(Gathered::Few(pairs));
            }
            spread(alloc, pairs)?
        }
        Gathered::Many(map) => map,
    };
    put_entry(&mut map, key, value)?;
    Ok(Gathered::Many(map))
}

fn put_entry(map: &mut IndexMap<Text, Doc>, key: Text, value: Doc) -> Result<(), OutOfMemory>
    ensures { OnOk result (pairs_of map.new.entries ≡ put (pairs_of map.old.entries) key value) }
{
    map.insert(key, value)?;
    Ok(())
}

/// The fields as pairs.
pub fn into_pairs(alloc: Global, fields: Gathered) -> Result<Pairs<Doc>, OutOfMemory>
    ensures { IfOk result (λ pairs. pairs ≡ kept fields) }
{
    match fields {
        Gathered::Few(pairs) => Ok(pairs),
        Gathered::Many(map) => gather(alloc, map),
    }
}

fn spread(alloc: Global, pairs: Pairs<Doc>) -> Result<IndexMap<Text, Doc>, OutOfMemory>
    ensures { IfOk result (λ map. pairs_of map.entries ≡ pairs) }
{
    let mut map = IndexMap::new(alloc);
    for Pair { key, value } in pairs.into_vec() {
        put_entry(&mut map, key, value)?;
    }
    Ok(map)
}

fn gather(alloc: Global, map: IndexMap<Text, Doc>) -> Result<Pairs<Doc>, OutOfMemory>
    ensures { IfOk result (λ pairs. pairs ≡ pairs_of map.entries) }
{
    let mut pairs = Pairs::with_capacity(alloc, map.len())?;
    for (key, value) in map {
        pairs.push_new(key, value)?;
    }
    Ok(pairs)
}
