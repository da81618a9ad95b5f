//! Files among the folders of models: the newest version of a service, and the first file of a name.
ghost use Rattle.std.specs.Prelude.{◌≡◌, false, IfOk, IfErr, IfSome, AllPairs, IsTrue};
ghost use Rattle.std.specs.Str.{chars};
ghost use Rattle.aws_world.specs.FileTree.{file_at, IsListing};
ghost use Rattle.texts.specs.Order.{IsBefore};
ghost use Rattle.model_store.specs.Faults.{HasFileCause};
ghost use Rattle.model_store.specs.Inside.{FaultsAt, IsAfter, IsListed, IsNewer, IsPathAmong};
ghost use Rattle.model_store.specs.Versions.{below, first_at, has_slash, is_plain, model_path, name_of, IsUpTo, IsFileAt, IsVersion, IsNewest, IsLookedAt, IsLookedAtIn, IsTailPath};

use crate::fault::Unread;
use aws_world::{FileEnd, Files};
use std::alloc::Global;
use std::cmp::Ordering;
use texts::{Bytes, List, OutOfMemory, Text};

/// The most bytes that a file of a service may have: 32 MiB.
pub const MOST_FILE_BYTES: u64 = 33_554_432;

/// A file of a service: its bytes, or that it has too many.
#[derive(Debug, Drop)]
pub enum ModelFile {
    Whole(Bytes),
    TooLong,
}

/// A version of a service: the name of its folder, and its model file.
#[derive(Debug, Drop)]
pub struct Version {
    pub name: Text,
    pub file: ModelFile,
}

/// The greatest version of a service's model in these folders, and of those that have it that in
/// the first.
pub fn newest_version<F: Files>(
    alloc: Global,
    files: &mut F,
    folders: &[Text],
    service: &Text,
) -> Result<Option<Version>, Unread>
    ensures kept { F.told files.new ≡ F.told files.old }
    ensures found { IfSome (F.told files.old)
        (λ held. IfOk result (IsNewest held folders.now service.now)) }
    ensures path { IfErr result (FaultsAt (IsLookedAt folders.now (F.told files.old) service.now)) }
    ensures cause { HasFileCause (F.faults files.old) (F.faults files.new) result }
{
    let mut newest = None;
    for folder in folders {
        let newer = match newer_version(alloc, files, folder, service, &newest) {
            Ok(newer) => newer,
            Err(refusal) => return Err(refusal),
        };
        newest = newer.or(newest);
    }
    Ok(newest)
}

/// The greatest version of a service's model in a folder, where it comes after the newest so far.
fn newer_version<F: Files>(
    alloc: Global,
    files: &mut F,
    folder: &Text,
    service: &Text,
    newest: &Option<Version>,
) -> Result<Option<Version>, Unread>
    ensures kept { F.told files.new ≡ F.told files.old }
    ensures found { IfSome (F.told files.old)
        (λ held. IfOk result (IsNewer (IsVersion held folder.now service.now) newest.now)) }
    ensures path { IfErr result (FaultsAt (IsLookedAtIn folder.now (F.told files.old) service.now)) }
    ensures cause { HasFileCause (F.faults files.old) (F.faults files.new) result }
{
    if !is_plain(service) {
        return Ok(None);
    }
    let path = below(alloc, folder, service.as_str())?;
    let versions = match list(alloc, files, &path) {
        Ok(versions) => versions,
        Err(refusal) => return Err(refusal),
    };
    newer_listed(alloc, files, &path, versions.as_slice(), newest)
}

/// Whether a word can name something in a folder.
fn is_plain(word: &Text) -> bool
    ensures { result ≡ is_plain word.now }
{
    !word.is("") && !word.is(".") && !word.is("..") && !has_slash(word.as_str())
}

fn has_slash(word: &str) -> bool
    ensures { result ≡ has_slash (chars word.now) }
{
    for c in word.chars() {
        if c == '/' {
            return true;
        }
    }
    false
}

/// The greatest of the versions in a service's folder that has a model file, where it comes after
/// the newest so far. The versions ascend.
fn newer_listed<F: Files>(
    alloc: Global,
    files: &mut F,
    folder: &Text,
    versions: &[Text],
    newest: &Option<Version>,
) -> Result<Option<Version>, Unread>
    ensures kept { F.told files.new ≡ F.told files.old }
    ensures found { IfSome (F.told files.old) (λ held. AllPairs IsBefore versions.now
        → IfOk result (IsNewer (IsListed held folder.now versions.now) newest.now)) }
    ensures path { IfErr result (FaultsAt (IsPathAmong folder.now versions.now)) }
    ensures cause { HasFileCause (F.faults files.old) (F.faults files.new) result }
{
    let mut left = versions;
    while let Some((name, smaller)) = left.split_last() {
        if !comes_after(name, newest) {
            return Ok(None);
        }
        let path = version_path(alloc, folder, name)?;
        match read(alloc, files, &path) {
            Ok(Some(file)) => return Ok(Some(named_version(alloc, name, file)?)),
            Ok(None) => left = smaller,
            Err(refusal) => return Err(refusal),
        }
    }
    Ok(None)
}

fn named_version(alloc: Global, name: &Text, file: ModelFile) -> Result<Version, OutOfMemory>
    ensures name { IfOk result (λ version. version.name ≡ name.now) }
    ensures file { IfOk result (λ version. version.file ≡ file) }
{
    Ok(Version {
        name: name.copy(alloc)?,
        file,
    })
}

/// Whether a name comes after that of the newest version so far, in the order of texts.
fn comes_after(name: &Text, newest: &Option<Version>) -> bool
    ensures after { IsTrue result → IsAfter (name_of newest.now) name.now }
    ensures up_to { result ≡ false → IsUpTo (name_of newest.now) name.now }
{
    match newest {
        None => true,
        Some(version) => match name.cmp(&version.name) {
            Ordering::Greater => true,
            Ordering::Equal => false,
            Ordering::Less => false,
        },
    }
}

/// The names below a folder: none where it isn't there.
fn list<F: Files>(alloc: Global, files: &mut F, folder: &Text) -> Result<List<Text>, Unread>
    ensures kept { F.told files.new ≡ F.told files.old }
    ensures names { IfSome (F.told files.old) (λ held. IfOk result (IsListing folder.now held)) }
    ensures fault { IfErr result (FaultsAt (λ path. path ≡ folder.now)) }
    ensures cause { HasFileCause (F.faults files.old) (F.faults files.new) result }
{
    match files.list(alloc, folder) {
        Ok(names) => Ok(names),
        Err(FileEnd::Absent) => Ok(List::new(alloc)),
        Err(FileEnd::TooLong) => unreachable!(),
        Err(FileEnd::Failed) => Err(Unread::FileFault(folder.copy(alloc)?)),
        Err(FileEnd::OutOfMemory) => Err(Unread::OutOfMemory),
    }
}

/// The file at a tail below the first of these folders that has one there.
pub fn first_file<F: Files>(
    alloc: Global,
    files: &mut F,
    folders: &[Text],
    tail: &Text,
) -> Result<Option<ModelFile>, Unread>
    ensures kept { F.told files.new ≡ F.told files.old }
    ensures found { IfSome (F.told files.old)
        (λ held. IfOk result (IsFileAt (first_at held folders.now tail.now))) }
    ensures path { IfErr result (FaultsAt (IsTailPath folders.now tail.now)) }
    ensures cause { HasFileCause (F.faults files.old) (F.faults files.new) result }
{
    for folder in folders {
        let path = below(alloc, folder, tail.as_str())?;
        match read(alloc, files, &path) {
            Ok(Some(file)) => return Ok(Some(file)),
            Ok(None) => {}
            Err(refusal) => return Err(refusal),
        }
    }
    Ok(None)
}

/// The file at a path, where it is there.
fn read<F: Files>(alloc: Global, files: &mut F, path: &Text) -> Result<Option<ModelFile>, Unread>
    ensures kept { F.told files.new ≡ F.told files.old }
    ensures found { IfSome (F.told files.old) (λ held. IfOk result (IsFileAt (file_at path.now held))) }
    ensures fault { IfErr result (FaultsAt (λ read. read ≡ path.now)) }
    ensures cause { HasFileCause (F.faults files.old) (F.faults files.new) result }
{
    match files.read(alloc, path, MOST_FILE_BYTES) {
        Ok(bytes) => Ok(Some(ModelFile::Whole(bytes))),
        Err(FileEnd::Absent) => Ok(None),
        Err(FileEnd::TooLong) => Ok(Some(ModelFile::TooLong)),
        Err(FileEnd::Failed) => Err(Unread::FileFault(path.copy(alloc)?)),
        Err(FileEnd::OutOfMemory) => Err(Unread::OutOfMemory),
    }
}

/// The path of a version's model file.
fn version_path(alloc: Global, folder: &Text, version: &Text) -> Result<Text, OutOfMemory>
    ensures { IfOk result (λ path. path ≡ model_path folder.now version.now) }
{
    let mut path = below(alloc, folder, version.as_str())?;
    path.push_ascii("/service-2.json")?;
    Ok(path)
}

/// The path of a name in a folder.
fn below(alloc: Global, folder: &Text, name: &str) -> Result<Text, OutOfMemory>
    ensures { IfOk result (λ path. path ≡ below folder.now (chars name.now)) }
{
    let mut path = folder.copy(alloc)?;
    path.push('/')?;
    path.push_str(name)?;
    Ok(path)
}
