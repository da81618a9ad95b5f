//! Searches of files in memory. What is expected follows from the rules by hand.
use crate::{
    Unread, find_model, find_paginators, find_partitions, find_rules, find_waiters, model_folders,
};
use aws_world::{Env, MemFiles};
use std::alloc::Global;
use std::test::Fail;
use texts::{Bytes, List, OutOfMemory, Text};

const MODEL: &str =
    r#"{"metadata":{"protocol":"rest-json","endpointPrefix":"s"},"operations":{},"shapes":{}}"#;

/// Files by their paths: versions of a service in two folders, models that no plain word leads to, and
/// other files of the service.
const HELD: [(&str, &str); 10] = [
    ("m/shelf/2023/service-2.json", "{"),
    ("m/shelf/2024/service-2.json", MODEL),
    ("n/shelf/2024/service-2.json", "{"),
    ("n/shelf/2025/waiters-2.json", "{"),
    ("m/a/b/1/service-2.json", MODEL),
    ("m/./1/service-2.json", MODEL),
    ("m/../1/service-2.json", MODEL),
    ("n/shelf/2024/paginators-1.json", r#"{"pagination":{}}"#),
    ("n/shelf/2024/waiters-2.json", r#"{"waiters":[]}"#),
    ("n/partitions.json", r#"{"partitions":[]}"#),
];

/// Files in memory, of which calls of these numbers fail.
fn held(alloc: Global, fails: &[u64]) -> Result<MemFiles, OutOfMemory> {
    let mut files = List::new(alloc);
    for (path, content) in &HELD {
        let content = Bytes::from_slice(alloc, content.as_bytes())?;
        files.push((Text::from_str(alloc, path)?, content))?;
    }
    let fails = List::from_vec(Vec::from_slice(alloc, fails)?);
    Ok(MemFiles::new(alloc, files, fails))
}

/// Texts, separated by blanks.
fn texts(alloc: Global, line: &str) -> Result<List<Text>, OutOfMemory> {
    let mut texts = List::new(alloc);
    for word in line.split(' ') {
        texts.push(Text::from_str(alloc, word)?)?;
    }
    Ok(texts)
}

/// The last text of a refusal.
fn last_text(refusal: Unread) -> Result<Text, OutOfMemory> {
    match refusal {
        Unread::UnknownService(service) => Ok(service),
        Unread::BadModel(_name, place) => Ok(place),
        Unread::FileFault(path) => Ok(path),
        Unread::OutOfMemory => Err(OutOfMemory),
    }
}

/// The version that a service has in these folders, or the last text of the refusal.
fn version(
    alloc: Global,
    folders: &str,
    service: &str,
    fails: &[u64],
) -> Result<Text, OutOfMemory> {
    let mut files = held(alloc, fails)?;
    let folders = texts(alloc, folders)?;
    let service = Text::from_str(alloc, service)?;
    match find_model(alloc, &mut files, folders.as_slice(), &service) {
        Ok(found) => found.version.copy(alloc),
        Err(refusal) => last_text(refusal),
    }
}

#[test]
fn versions_of_services(rt: HostRuntime) -> Result<(), Fail> {
    let rows = [
        ("m n", "shelf", "2024"),
        ("n m", "shelf", "json"),
        ("m", "a/b", "a/b"),
        ("m", ".", "."),
        ("m", "..", ".."),
    ];
    for (folders, service, expected) in rows {
        let told = version(rt.alloc(), folders, service, &[])?;
        assert_eq!(rt; told.as_str(), expected, "{service}");
    }
    let told = version(rt.alloc(), "n m", "shelf", &[2])?;
    assert_eq!(rt; told.as_str(), "n/shelf/2025/service-2.json");
    Ok(())
}

#[test]
fn a_long_file(rt: HostRuntime) -> Result<(), Fail> {
    let alloc = rt.alloc();
    let mut files = List::new(alloc);
    let path = Text::from_str(alloc, "m/shelf/1/service-2.json")?;
    let blanks = Vec::from_elem(alloc, b' ', 33_554_433)?;
    files.push((path, Bytes::from_vec(blanks)))?;
    let mut files = MemFiles::new(alloc, files, List::new(alloc));
    let folders = texts(alloc, "m")?;
    let service = Text::from_str(alloc, "shelf")?;
    let found = find_model(alloc, &mut files, folders.as_slice(), &service);
    assert!(rt; last_text(found.err().ok_or("it is found")?)?.is("too long"));
    Ok(())
}

#[test]
fn files_of_a_version(rt: HostRuntime) -> Result<(), Fail> {
    let alloc = rt.alloc();
    let mut files = held(alloc, &[])?;
    let folders = texts(alloc, "m n")?;
    let folders = folders.as_slice();
    let service = Text::from_str(alloc, "shelf")?;
    let version = Text::from_str(alloc, "2024")?;
    let rows = find_paginators(alloc, &mut files, folders, &service, &version);
    assert!(rt; matches!(rows, Ok(Some(_))));
    let waiters = find_waiters(alloc, &mut files, folders, &service, &version);
    assert!(rt; last_text(waiters.err().ok_or("they are found")?)?.is("waiters"));
    let rules = find_rules(alloc, &mut files, folders, &service, &version);
    assert!(rt; matches!(rules, Ok(None)));
    Ok(())
}

/// The partitions in these folders: `found`, or the last text of the refusal.
fn partitions(alloc: Global, folders: &str, fails: &[u64]) -> Result<Text, OutOfMemory> {
    let mut files = held(alloc, fails)?;
    let folders = texts(alloc, folders)?;
    match find_partitions(alloc, &mut files, folders.as_slice()) {
        Ok(_partitions) => Text::from_str(alloc, "found"),
        Err(refusal) => last_text(refusal),
    }
}

#[test]
fn partitions_in_folders(rt: HostRuntime) -> Result<(), Fail> {
    for (folders, expected) in [("m n", "found"), ("m", "absent")] {
        let told = partitions(rt.alloc(), folders, &[])?;
        assert_eq!(rt; told.as_str(), expected, "{folders}");
    }
    let told = partitions(rt.alloc(), "m n", &[2])?;
    assert_eq!(rt; told.as_str(), "n/partitions.json");
    Ok(())
}

#[test]
fn folders_of_models(rt: HostRuntime) -> Result<(), Fail> {
    let alloc = rt.alloc();
    let mut pairs = List::new(alloc);
    for (name, value) in [("HOME", "/h"), ("AWS_DATA_PATH", "a::b:")] {
        pairs.push((Text::from_str(alloc, name)?, Text::from_str(alloc, value)?))?;
    }
    let folders = model_folders(alloc, &Env { pairs })?;
    let expected = texts(alloc, "a b /h/.aws/models")?;
    assert!(rt; folders.iter().eq(expected.iter()));
    Ok(())
}
