//! What the files of a service say.
ghost use Rattle.std.specs.Prelude.{◌≡◌, IfErr, IfNone, IfOk, IfSome, IsTrue, codes};
ghost use Rattle.json_doc.specs.declared.doc.Doc.{Doc as Document};
ghost use Rattle.json_doc.specs.Grammar.{Reads};
ghost use Rattle.rule_sets.specs.Rules.{seen_rules};
ghost use Rattle.std.specs.Option.{option_map};
ghost use Rattle.texts.specs.Ascii.{is_ascii_text};
ghost use Rattle.model_store.specs.Contents.{place_of, rule_place_of, Gives, SaysModel, SaysPaginators, SaysWaiters, SaysRules, SaysPartitions};
ghost use Rattle.model_store.specs.Due.{IfThere, IsModelOfNewest, MustBeThere, found_at, paginators_name, waiters_name, rules_name, partitions_name};
ghost use Rattle.model_store.specs.Inside.{AnswersAlways, IsOpened, Refuses};
ghost use Rattle.model_store.specs.Versions.{model_name};

use crate::fault::Unread;
use crate::finding::FoundModel;
use crate::literals::literal;
use crate::searching::{ModelFile, Version};
use json_doc::{Doc, ReadFault, read};
use model_files::{ModelFault, Paginators, Waiters};
use rule_sets::{Partitions, RuleFault, RuleSet};
use service_model::Model;
use std::alloc::Global;
use texts::{OutOfMemory, Text};

/// The model in the newest version's file, where there is one.
pub fn model_of(
    alloc: Global,
    service: &Text,
    newest: Option<Version>,
) -> Result<FoundModel, Unread>
    ensures { AnswersAlways (λ found. found) (IsModelOfNewest service.now newest) result }
{
    let Some(Version { name, file }) = newest else {
        return Err(unknown_service(alloc, service));
    };
    model_in(alloc, name, file)
}

fn unknown_service(alloc: Global, service: &Text) -> Unread
    ensures { Refuses (Unread.UnknownService service.now) result }
{
    match service.copy(alloc) {
        Ok(service) => Unread::UnknownService(service),
        Err(_) => Unread::OutOfMemory,
    }
}

/// The model in a version's file.
fn model_in(alloc: Global, version: Text, file: ModelFile) -> Result<FoundModel, Unread>
    ensures { AnswersAlways (λ found. found) (Gives model_name SaysModel (found_at version) file) result }
{
    let doc = match opened(alloc, "service-2.json", file) {
        Ok(doc) => doc,
        Err(refusal) => return Err(refusal),
    };
    match Model::read(alloc, &doc) {
        Ok(model) => Ok(FoundModel { version, model }),
        Err(fault) => Err(bad_at(alloc, "service-2.json", place_of(alloc, fault))),
    }
}

/// The rows of a file of paginators, where it is there.
pub fn paginators_in(alloc: Global, file: Option<ModelFile>) -> Result<Option<Paginators>, Unread>
    ensures { AnswersAlways (λ rows. rows) (IfThere paginators_name SaysPaginators file) result }
{
    let Some(file) = file else {
        return Ok(None);
    };
    let doc = match opened(alloc, "paginators-1.json", file) {
        Ok(doc) => doc,
        Err(refusal) => return Err(refusal),
    };
    match Paginators::read(alloc, &doc) {
        Ok(rows) => Ok(Some(rows)),
        Err(fault) => Err(bad_at(alloc, "paginators-1.json", place_of(alloc, fault))),
    }
}

/// The waiters of a file, where it is there.
pub fn waiters_in(alloc: Global, file: Option<ModelFile>) -> Result<Option<Waiters>, Unread>
    ensures { AnswersAlways (λ rows. rows) (IfThere waiters_name SaysWaiters file) result }
{
    let Some(file) = file else {
        return Ok(None);
    };
    let doc = match opened(alloc, "waiters-2.json", file) {
        Ok(doc) => doc,
        Err(refusal) => return Err(refusal),
    };
    match Waiters::read(alloc, &doc) {
        Ok(rows) => Ok(Some(rows)),
        Err(fault) => Err(bad_at(alloc, "waiters-2.json", place_of(alloc, fault))),
    }
}

/// The endpoint rules of a file, where it is there.
pub fn rules_in(alloc: Global, file: Option<ModelFile>) -> Result<Option<RuleSet>, Unread>
    ensures { AnswersAlways (λ rules. option_map seen_rules rules) (IfThere rules_name SaysRules file) result }
{
    let Some(file) = file else {
        return Ok(None);
    };
    let doc = match opened(alloc, "endpoint-rule-set-1.json", file) {
        Ok(doc) => doc,
        Err(refusal) => return Err(refusal),
    };
    match RuleSet::read(alloc, &doc) {
        Ok(rules) => Ok(Some(rules)),
        Err(fault) => Err(bad_at(alloc, "endpoint-rule-set-1.json", rule_place_of(fault))),
    }
}

/// The partitions in a file, which must be there.
pub fn partitions_in(alloc: Global, file: Option<ModelFile>) -> Result<Partitions, Unread>
    ensures { AnswersAlways (λ partitions. partitions) (MustBeThere partitions_name SaysPartitions file) result }
{
    let Some(file) = file else {
        return Err(bad_file(alloc, "partitions.json", "absent"));
    };
    let doc = match opened(alloc, "partitions.json", file) {
        Ok(doc) => doc,
        Err(refusal) => return Err(refusal),
    };
    match Partitions::read(alloc, &doc) {
        Ok(partitions) => Ok(partitions),
        Err(fault) => Err(bad_at(alloc, "partitions.json", rule_place_of(fault))),
    }
}

/// The document of a file of this name, or what is wrong with the file as a whole.
fn opened(alloc: Global, name: &str, file: ModelFile) -> Result<Doc, Unread>
    requires { IsTrue (is_ascii_text name.now) }
    ensures { IsOpened name.now file result }
{
    let bytes = match file {
        ModelFile::Whole(bytes) => bytes,
        ModelFile::TooLong => return Err(bad_file(alloc, name, "too long")),
    };
    match read_document(alloc, bytes.as_slice()) {
        Ok(Some(doc)) => Ok(doc),
        Ok(None) => Err(bad_file(alloc, name, "json")),
        Err(_) => Err(Unread::OutOfMemory),
    }
}

/// The document of bytes that are JSON.
fn read_document(alloc: Global, bytes: &[u8]) -> Result<Option<Doc>, OutOfMemory>
    ensures some { IfOk result (λ found. IfSome found (Reads bytes.now)) }
    ensures none { IfOk result (λ found. IfNone found ((doc : Document) → Reads bytes.now doc → ⊥)) }
{
    match read(alloc, bytes) {
        Ok(doc) => Ok(Some(doc)),
        Err(ReadFault::OutOfMemory) => Err(OutOfMemory),
        Err(ReadFault::Syntax(_)) => Ok(None),
        Err(ReadFault::TooDeep(_)) => Ok(None),
        Err(ReadFault::NumberTooWide(_)) => Ok(None),
    }
}

/// The place of a fault, where it isn't want of memory.
fn place_of(alloc: Global, fault: ModelFault) -> Option<Text>
    ensures { result ≡ place_of fault }
{
    match fault {
        ModelFault::Missing(place) => Some(place.text(alloc)),
        ModelFault::UnknownShape(place) => Some(place.text(alloc)),
        ModelFault::WrongKind(place) => Some(place.text(alloc)),
        ModelFault::Collides(place) => Some(place.text(alloc)),
        ModelFault::OutOfMemory => None,
    }
}

/// The place of a fault of rules, where it isn't want of memory.
fn rule_place_of(fault: RuleFault) -> Option<Text>
    ensures { result ≡ rule_place_of fault }
{
    match fault {
        RuleFault::Bad(place) => Some(place),
        RuleFault::OutOfMemory => None,
    }
}

/// What keeps a whole file from being one of its kind, as the place of its fault.
fn bad_file(alloc: Global, name: &str, place: &str) -> Unread
    requires name { IsTrue (is_ascii_text name.now) }
    requires place { IsTrue (is_ascii_text place.now) }
    ensures { Refuses (Unread.BadModel name.now place.now) result }
{
    match literal(alloc, place) {
        Ok(place) => bad_at(alloc, name, Some(place)),
        Err(_) => Unread::OutOfMemory,
    }
}

/// The fault at a place of the file with this name; want of memory where there is no place.
fn bad_at(alloc: Global, name: &str, place: Option<Text>) -> Unread
    requires { IsTrue (is_ascii_text name.now) }
    ensures fault { IfSome place (λ place. Refuses (Unread.BadModel name.now place) result) }
    ensures memory { IfNone place (result ≡ Unread.OutOfMemory) }
{
    let Some(place) = place else {
        return Unread::OutOfMemory;
    };
    match literal(alloc, name) {
        Ok(name) => Unread::BadModel(name, place),
        Err(_) => Unread::OutOfMemory,
    }
}
