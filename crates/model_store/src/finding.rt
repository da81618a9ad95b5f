//! The files of a service, found among the folders of models.
ghost use Rattle.std.specs.Prelude.{◌≡◌, IfErr, IfOk, IsTrue};
ghost use Rattle.std.specs.Option.{option_map};
ghost use Rattle.rule_sets.specs.Rules.{seen_rules};
ghost use Rattle.texts.specs.Ascii.{is_ascii_text};
ghost use Rattle.model_store.specs.Due.{ArePaginatorsOf, AreWaitersOf, AreRulesOf, ArePartitions, IsModelOf, tail_of, paginators_name, waiters_name, rules_name, partitions_name};
ghost use Rattle.model_store.specs.Faults.{AnswersIfRead, FailsOnlyAt, HasFileCause};
ghost use Rattle.model_store.specs.Versions.{IsLookedAt, IsTailPath};

use crate::contents::{model_of, paginators_in, partitions_in, rules_in, waiters_in};
use crate::fault::Unread;
use crate::literals::literal;
use crate::searching::{first_file, newest_version};
use aws_world::Files;
use model_files::{Paginators, Waiters};
use rule_sets::{Partitions, RuleSet};
use service_model::Model;
use std::alloc::Global;
use texts::{OutOfMemory, Text};

/// The model of a service, with the version that it is of: the name of a folder.
#[derive(Debug, Drop)]
pub struct FoundModel {
    pub version: Text,
    pub model: Model,
}

/// The model of a service: that of its newest version in these folders, by `service-2.json` in the
/// first folder that has it.
pub fn find_model<F: Files>(
    alloc: Global,
    files: &mut F,
    folders: &[Text],
    service: &Text,
) -> Result<FoundModel, Unread>
    ensures found { AnswersIfRead (λ found. found) (IsModelOf (F.told files.old) folders.now service.now) result }
    ensures path { IfErr result (FailsOnlyAt (IsLookedAt folders.now (F.told files.old) service.now)) }
    ensures kept { F.told files.new ≡ F.told files.old }
    ensures cause { HasFileCause (F.faults files.old) (F.faults files.new) result }
{
    match newest_version(alloc, files, folders, service) {
        Ok(newest) => model_of(alloc, service, newest),
        Err(refusal) => Err(refusal),
    }
}

/// The rows of a version's paginators, by `paginators-1.json` in the first folder that has it; None
/// where none has.
pub fn find_paginators<F: Files>(
    alloc: Global,
    files: &mut F,
    folders: &[Text],
    service: &Text,
    version: &Text,
) -> Result<Option<Paginators>, Unread>
    ensures found { AnswersIfRead (λ rows. rows)
        (ArePaginatorsOf (F.told files.old) folders.now service.now version.now) result }
    ensures path { IfErr result
        (FailsOnlyAt (IsTailPath folders.now (tail_of service.now version.now paginators_name))) }
    ensures kept { F.told files.new ≡ F.told files.old }
    ensures cause { HasFileCause (F.faults files.old) (F.faults files.new) result }
{
    let tail = tail_of(alloc, service, version, "paginators-1.json")?;
    match first_file(alloc, files, folders, &tail) {
        Ok(file) => paginators_in(alloc, file),
        Err(refusal) => Err(refusal),
    }
}

/// The waiters of a version, by `waiters-2.json` in the first folder that has it; None where none has.
pub fn find_waiters<F: Files>(
    alloc: Global,
    files: &mut F,
    folders: &[Text],
    service: &Text,
    version: &Text,
) -> Result<Option<Waiters>, Unread>
    ensures found { AnswersIfRead (λ rows. rows)
        (AreWaitersOf (F.told files.old) folders.now service.now version.now) result }
    ensures path { IfErr result
        (FailsOnlyAt (IsTailPath folders.now (tail_of service.now version.now waiters_name))) }
    ensures kept { F.told files.new ≡ F.told files.old }
    ensures cause { HasFileCause (F.faults files.old) (F.faults files.new) result }
{
    let tail = tail_of(alloc, service, version, "waiters-2.json")?;
    match first_file(alloc, files, folders, &tail) {
        Ok(file) => waiters_in(alloc, file),
        Err(refusal) => Err(refusal),
    }
}

/// The endpoint rules of a version, by `endpoint-rule-set-1.json` in the first folder that has it; None
/// where none has.
pub fn find_rules<F: Files>(
    alloc: Global,
    files: &mut F,
    folders: &[Text],
    service: &Text,
    version: &Text,
) -> Result<Option<RuleSet>, Unread>
    ensures found { AnswersIfRead (λ rules. option_map seen_rules rules)
        (AreRulesOf (F.told files.old) folders.now service.now version.now) result }
    ensures path { IfErr result
        (FailsOnlyAt (IsTailPath folders.now (tail_of service.now version.now rules_name))) }
    ensures kept { F.told files.new ≡ F.told files.old }
    ensures cause { HasFileCause (F.faults files.old) (F.faults files.new) result }
{
    let tail = tail_of(alloc, service, version, "endpoint-rule-set-1.json")?;
    match first_file(alloc, files, folders, &tail) {
        Ok(file) => rules_in(alloc, file),
        Err(refusal) => Err(refusal),
    }
}

/// The partitions of AWS, by `partitions.json` in the first folder that has it; a bad model with the
/// place `absent` where none has.
pub fn find_partitions<F: Files>(
    alloc: Global,
    files: &mut F,
    folders: &[Text],
) -> Result<Partitions, Unread>
    ensures found { AnswersIfRead (λ partitions. partitions) (ArePartitions (F.told files.old) folders.now) result }
    ensures path { IfErr result (FailsOnlyAt (IsTailPath folders.now partitions_name)) }
    ensures kept { F.told files.new ≡ F.told files.old }
    ensures cause { HasFileCause (F.faults files.old) (F.faults files.new) result }
{
    let tail = literal(alloc, "partitions.json")?;
    match first_file(alloc, files, folders, &tail) {
        Ok(file) => partitions_in(alloc, file),
        Err(refusal) => Err(refusal),
    }
}

/// Where a file of a service's version stands below a folder.
fn tail_of(alloc: Global, service: &Text, version: &Text, name: &str) -> Result<Text, OutOfMemory>
    requires { IsTrue (is_ascii_text name.now) }
    ensures { IfOk result (λ tail. tail ≡ tail_of service.now version.now name.now) }
{
    let mut tail = service.copy(alloc)?;
    tail.push('/')?;
    tail.push_str(version.as_str())?;
    tail.push('/')?;
    tail.push_ascii(name)?;
    Ok(tail)
}
