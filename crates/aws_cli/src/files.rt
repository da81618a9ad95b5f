ghost use Rattle.std.specs.Prelude.{◌≤◌, None, length, IfOk, IfSome};

use crate::again::read_again;
use aws_world::{FileEnd, Files};
use json_doc::{Bytes, List, Text};
use std::alloc::Global;
use std::io::ErrorKind;
use std::{fs, io};

/// The system's files.
#[derive(Drop)]
pub struct RealFiles<'a> {
    rt: &'a HostRuntime,
    faults: u64,
}

impl<'a> RealFiles<'a> {
    pub fn new(rt: &'a HostRuntime) -> RealFiles<'a> {
        RealFiles { rt, faults: 0 }
    }
}

impl Files for RealFiles<'_> {
    ghost told = { λ _. None };

    ghost faults = { λ files. files.faults };

    fn list(&mut self, alloc: Global, folder: &Text) -> Result<List<Text>, FileEnd> {
        match names_in(self.rt, alloc, folder.as_str()) {
            Ok(names) => Ok(names),
            Err(error) => match error.kind() {
                ErrorKind::NotFound | ErrorKind::NotADirectory => Err(FileEnd::Absent),
                ErrorKind::OutOfMemory => Err(FileEnd::OutOfMemory),
                _ => {
                    self.faults = self.faults.saturating_add(1);
                    Err(FileEnd::Failed)
                }
            },
        }
    }

    fn read(&mut self, alloc: Global, path: &Text, limit: u64) -> Result<Bytes, FileEnd> {
        match bytes_of(self.rt, alloc, path.as_str(), limit) {
            Ok(Some(bytes)) => Ok(bytes),
            Ok(None) => Err(FileEnd::TooLong),
            Err(error) => match error.kind() {
                ErrorKind::NotFound | ErrorKind::NotADirectory => Err(FileEnd::Absent),
                ErrorKind::OutOfMemory => Err(FileEnd::OutOfMemory),
                _ => {
                    self.faults = self.faults.saturating_add(1);
                    Err(FileEnd::Failed)
                }
            },
        }
    }
}

/// The names in a folder, in the order of their bytes. One that is no UTF-8 is passed over.
fn names_in(rt: &HostRuntime, alloc: Global, folder: &str) -> io::Result<List<Text>> {
    let mut names = Vec::new(alloc);
    for entry in fs::read_dir(rt, folder)? {
        match entry {
            Ok(entry) => names.push(String::from_str(alloc, entry.file_name())?)?,
            Err(error) if error.kind() == ErrorKind::InvalidFilename => {}
            Err(error) => return Err(error),
        }
    }
    names.sort()?;
    let mut texts = List::new(alloc);
    for name in names {
        if texts.push(Text::from_string(name)).is_err() {
            return Err(io::Error::from(ErrorKind::OutOfMemory));
        }
    }
    Ok(texts)
}

/// The bytes of a file, or None where it has more than the limit.
fn bytes_of(rt: &HostRuntime, alloc: Global, path: &str, limit: u64) -> io::Result<Option<Bytes>>
    ensures { IfOk result (λ found. IfSome found (λ bytes. length bytes ≤ limit)) }
{
    let mut file = fs::open(rt, path)?;
    let mut bytes = Vec::new(alloc);
    let mut room = [0u8; 8192];
    for _ in 0..u64::MAX {
        let count = read_again(&mut file, &mut room)?;
        if count == 0 {
            break;
        }
        bytes.extend_from_slice(&room[..count])?;
        if bytes.len() as u64 > limit {
            return Ok(None);
        }
    }
    Ok(if bytes.len() as u64 <= limit {
        Some(Bytes::from_vec(bytes))
    } else {
        None
    })
}

#[cfg(test)]
mod tests {
    use super::*;
    use std::test::Fail;

    #[test]
    fn reads_a_file(rt: HostRuntime) -> Result<(), Fail> {
        let alloc = rt.alloc();
        let folder = format!(in alloc; "/tmp/aws_cli_files_{}", std::process::id(rt.process()))?;
        fs::create_dir(&rt, folder.as_str())?;
        for name in ["b", "a"] {
            fs::write(&rt, format!(in alloc; "{folder}/{name}")?.as_str(), "text")?;
        }
        let mut files = RealFiles::new(&rt);
        let path = Text::from_str(alloc, format!(in alloc; "{folder}/a")?.as_str())?;
        let below = Text::from_str(alloc, format!(in alloc; "{folder}/a/c")?.as_str())?;
        let folder = Text::from_string(folder);
        let names = files.list(alloc, &folder).ok().ok_or("a list")?;
        assert_eq!(rt; names.len(), 2);
        assert!(rt; names.as_slice().iter().any(|name| name.is("a")));
        let bytes = files.read(alloc, &path, 4).ok().ok_or("bytes")?;
        assert_eq!(rt; bytes.as_slice(), b"text".as_slice());
        assert_eq!(rt; files.read(alloc, &path, 3).err(), Some(FileEnd::TooLong));
        assert_eq!(rt; files.read(alloc, &below, 3).err(), Some(FileEnd::Absent));
        assert_eq!(rt; files.read(alloc, &folder, 3).err(), Some(FileEnd::Failed));
        assert_eq!(rt; files.faults, 1);
        fs::remove_dir_all(&rt, folder.as_str())?;
        assert_eq!(rt; files.list(alloc, &folder).err(), Some(FileEnd::Absent));
        Ok(())
    }
}
