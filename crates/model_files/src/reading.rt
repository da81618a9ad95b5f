//! Parts of a document by their keys and kinds, or the fault that stands for them.
ghost use Rattle.std.specs.Prelude.{◌≡◌, [], IsTrue, IfOk};
ghost use Rattle.std.specs.Fmt.{decimal};
ghost use Rattle.std.specs.Option.{option_copied};
ghost use Rattle.texts.specs.Ascii.{is_ascii_text};
ghost use Rattle.texts.specs.Calls.{Answers};
ghost use Rattle.model_files.specs.declared.fault.ModelFault.TheVariants as fault;
ghost use Rattle.model_files.specs.declared.fault.Place.TheVariants as place;
ghost use Rattle.model_files.specs.Faults.{below, moved, each_from, IsFault, is_memory};
ghost use Rattle.model_files.specs.Reading.{fields_of, text_of, flag_of, items_of, needed, object_at, text_at, items_at, maybe_text, maybe_object, flag_at, texts_of, texts_at, maybe_texts, is_true_at};

use crate::fault::{inside, move_below};
use crate::{ModelFault, Place};
use json_doc::{Doc, List, OutOfMemory, Pairs, Text};
use std::alloc::Global;

/// The fault of a value of another kind.
pub fn wrong_kind() -> ModelFault
    ensures { result ≡ fault.WrongKind place.Whole }
{
    ModelFault::WrongKind(Place::Whole)
}

/// The members of a document that is to be an object.
#[tactic(auto, unfolding(crate::specs::Reading::fields_of))]
pub fn object(doc: &Doc) -> Result<&Pairs<Doc>, ModelFault>
    ensures { Answers is_memory (λ pairs. pairs.now) result (fields_of doc.now) }
{
    match doc {
        Doc::Fields(pairs) => Ok(pairs),
        _ => Err(wrong_kind()),
    }
}

#[tactic(auto, unfolding(crate::specs::Reading::text_of))]
pub fn text(doc: &Doc) -> Result<&Text, ModelFault>
    ensures { Answers is_memory (λ text. text.now) result (text_of doc.now) }
{
    match doc {
        Doc::Str(text) => Ok(text),
        _ => Err(wrong_kind()),
    }
}

#[tactic(auto, unfolding(crate::specs::Reading::flag_of))]
pub fn flag(doc: &Doc) -> Result<bool, ModelFault>
    ensures { Answers is_memory (λ flag. flag) result (flag_of doc.now) }
{
    match doc {
        Doc::Flag(flag) => Ok(*flag),
        _ => Err(wrong_kind()),
    }
}

#[tactic(auto, unfolding(crate::specs::Reading::items_of))]
pub fn items(doc: &Doc) -> Result<&List<Doc>, ModelFault>
    ensures { Answers is_memory (λ items. items.now) result (items_of doc.now) }
{
    match doc {
        Doc::Items(items) => Ok(items),
        _ => Err(wrong_kind()),
    }
}

/// The fault of a needed key that isn't there.
pub fn missing(alloc: Global, key: &str) -> ModelFault
    requires { IsTrue (is_ascii_text key.now) }
    ensures { IsFault result (fault.Missing (place.At key.now)) }
{
    match ascii_text(alloc, key) {
        Ok(key) => ModelFault::Missing(Place::At(key)),
        Err(_) => ModelFault::OutOfMemory,
    }
}

/// The fault of a value at a key that is none of its choices.
pub fn wrong(alloc: Global, key: &str) -> ModelFault
    requires { IsTrue (is_ascii_text key.now) }
    ensures { IsFault result (fault.WrongKind (place.At key.now)) }
{
    match ascii_text(alloc, key) {
        Ok(key) => ModelFault::WrongKind(Place::At(key)),
        Err(_) => ModelFault::OutOfMemory,
    }
}

/// The text of a string in ASCII.
pub fn ascii_text(alloc: Global, text: &str) -> Result<Text, OutOfMemory>
    requires { IsTrue (is_ascii_text text.now) }
    ensures { IfOk result (λ made. made ≡ text.now) }
{
    let mut made = Text::new(alloc);
    made.push_ascii(text)?;
    Ok(made)
}

/// What stands at a key that must be there. Keys here and below are in ASCII.
#[tactic(auto, unfolding(crate::specs::Reading::needed))]
pub fn needed<'a>(alloc: Global, fields: &'a Pairs<Doc>, key: &str) -> Result<&'a Doc, ModelFault>
    requires { IsTrue (is_ascii_text key.now) }
    ensures { Answers is_memory (λ doc. doc.now) result (needed key.now fields.now) }
{
    match fields.get(key) {
        Some(doc) => Ok(doc),
        None => Err(missing(alloc, key)),
    }
}

/// The object at a key.
#[tactic(auto, using(crate::proofs::Each::gives_inside), unfolding(crate::specs::Reading::object_at))]
pub fn object_at<'a>(
    alloc: Global,
    fields: &'a Pairs<Doc>,
    key: &str,
) -> Result<&'a Pairs<Doc>, ModelFault>
    requires { IsTrue (is_ascii_text key.now) }
    ensures { Answers is_memory (λ pairs. pairs.now) result (object_at key.now fields.now) }
{
    let doc = needed(alloc, fields, key)?;
    inside(alloc, key, object(doc))
}

/// The text at a key.
#[tactic(auto, using(crate::proofs::Each::gives_inside), unfolding(crate::specs::Reading::text_at))]
pub fn text_at<'a>(alloc: Global, fields: &'a Pairs<Doc>, key: &str) -> Result<&'a Text, ModelFault>
    requires { IsTrue (is_ascii_text key.now) }
    ensures { Answers is_memory (λ text. text.now) result (text_at key.now fields.now) }
{
    let doc = needed(alloc, fields, key)?;
    inside(alloc, key, text(doc))
}

/// The list at a key.
#[tactic(auto, using(crate::proofs::Each::gives_inside), unfolding(crate::specs::Reading::items_at))]
pub fn items_at<'a>(
    alloc: Global,
    fields: &'a Pairs<Doc>,
    key: &str,
) -> Result<&'a List<Doc>, ModelFault>
    requires { IsTrue (is_ascii_text key.now) }
    ensures { Answers is_memory (λ items. items.now) result (items_at key.now fields.now) }
{
    let doc = needed(alloc, fields, key)?;
    inside(alloc, key, items(doc))
}

/// The text at a key, where there is one.
#[tactic(auto, using(crate::proofs::Each::gives_inside), unfolding(crate::specs::Reading::maybe_text))]
pub fn maybe_text<'a>(
    alloc: Global,
    fields: &'a Pairs<Doc>,
    key: &str,
) -> Result<Option<&'a Text>, ModelFault>
    requires { IsTrue (is_ascii_text key.now) }
    ensures { Answers is_memory option_copied result (maybe_text key.now fields.now) }
{
    let Some(doc) = fields.get(key) else {
        return Ok(None);
    };
    Ok(Some(inside(alloc, key, text(doc))?))
}

/// The object at a key, where there is one.
#[tactic(auto, using(crate::proofs::Each::gives_inside), unfolding(crate::specs::Reading::maybe_object))]
pub fn maybe_object<'a>(
    alloc: Global,
    fields: &'a Pairs<Doc>,
    key: &str,
) -> Result<Option<&'a Pairs<Doc>>, ModelFault>
    requires { IsTrue (is_ascii_text key.now) }
    ensures { Answers is_memory option_copied result (maybe_object key.now fields.now) }
{
    let Some(doc) = fields.get(key) else {
        return Ok(None);
    };
    Ok(Some(inside(alloc, key, object(doc))?))
}

/// The flag at a key: false where nothing stands there.
#[tactic(auto, using(crate::proofs::Each::gives_inside), unfolding(crate::specs::Reading::flag_at))]
pub fn flag_at(alloc: Global, fields: &Pairs<Doc>, key: &str) -> Result<bool, ModelFault>
    requires { IsTrue (is_ascii_text key.now) }
    ensures { Answers is_memory (λ flag. flag) result (flag_at key.now fields.now) }
{
    let Some(doc) = fields.get(key) else {
        return Ok(false);
    };
    inside(alloc, key, flag(doc))
}

/// The texts of the list at a key: none where nothing stands there.
#[tactic(auto, using(crate::proofs::Each::gives_inside), unfolding(crate::specs::Reading::texts_at))]
pub fn texts_at(alloc: Global, fields: &Pairs<Doc>, key: &str) -> Result<List<Text>, ModelFault>
    requires { IsTrue (is_ascii_text key.now) }
    ensures { Answers is_memory (λ texts. texts) result (texts_at key.now fields.now) }
{
    let Some(doc) = fields.get(key) else {
        return Ok(List::new(alloc));
    };
    inside(alloc, key, texts(alloc, doc))
}

/// The texts of the list at a key, where something stands there.
#[tactic(auto, using(crate::proofs::Each::gives_inside), unfolding(crate::specs::Reading::maybe_texts))]
pub fn maybe_texts(
    alloc: Global,
    fields: &Pairs<Doc>,
    key: &str,
) -> Result<Option<List<Text>>, ModelFault>
    requires { IsTrue (is_ascii_text key.now) }
    ensures { Answers is_memory (λ texts. texts) result (maybe_texts key.now fields.now) }
{
    let Some(doc) = fields.get(key) else {
        return Ok(None);
    };
    Ok(Some(inside(alloc, key, texts(alloc, doc))?))
}

/// A list of texts.
#[tactic(auto, unfolding(crate::specs::Reading::texts_of))]
pub fn texts(alloc: Global, doc: &Doc) -> Result<List<Text>, ModelFault>
    ensures { Answers is_memory (λ texts. texts) result (texts_of doc.now) }
{
    let items = items(doc)?;
    copied_texts(alloc, items.as_slice())
}

fn copied_texts(alloc: Global, items: &[Doc]) -> Result<List<Text>, ModelFault>
    ensures { Answers is_memory (λ texts. texts) result (each_from text_of 0 items.now) }
{
    let mut texts = List::new(alloc);
    for (at, item) in items.iter().enumerate() {
        match text(item) {
            Ok(text) => texts.push(text.copy(alloc)?)?,
            Err(fault) => return Err(move_to(alloc, at, fault)),
        }
    }
    Ok(texts)
}

/// A fault of the item at a position, as a fault of the list.
pub fn move_to(alloc: Global, at: usize, fault: ModelFault) -> ModelFault
    ensures { IsFault result (moved (decimal at) fault) }
{
    match format!(in alloc; "{at}") {
        Ok(key) => move_below(alloc, key.as_str(), fault),
        Err(_) => ModelFault::OutOfMemory,
    }
}

/// An equal text, where there is one.
pub fn copied(alloc: Global, text: Option<&Text>) -> Result<Option<Text>, OutOfMemory>
    ensures { IfOk result (λ made. made ≡ option_copied text.entry) }
{
    match text {
        Some(text) => Ok(Some(text.copy(alloc)?)),
        None => Ok(None),
    }
}

/// Whether true stands at a key.
#[tactic(auto, unfolding(crate::specs::Reading::is_true_at))]
pub fn is_true_at(fields: &Pairs<Doc>, key: &str) -> bool
    requires { IsTrue (is_ascii_text key.now) }
    ensures { result ≡ is_true_at key.now fields.now }
{
    matches!(fields.get(key), Some(Doc::Flag(true)))
}

/// The fault of a needed key of an object that isn't there: its place is the one that it would
/// have.
pub fn missing_below(alloc: Global, object: &str, key: &str) -> ModelFault
    requires object { IsTrue (is_ascii_text object.now) }
    requires key { IsTrue (is_ascii_text key.now) }
    ensures { IsFault result (fault.Missing (below object.now (place.At key.now))) }
{
    move_below(alloc, object, missing(alloc, key))
}
