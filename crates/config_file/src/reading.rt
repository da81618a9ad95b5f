//! The reading of a settings file, line by line.
ghost use Rattle.std.specs.Prelude.{◌≡◌, None, ◌<◌, ◌+◌, ◌^◌, ℕ, List, [], ◌∷◌, Ok, Err, IfOk, IfErr, OnOk, MatchOption, length, nat_eq, position};
ghost use Rattle.std.specs.Str.Lines.{lines, strip_carriage_return};
ghost use Rattle.config_file.specs.declared.line.Place.TheVariants as place;
ghost use Rattle.config_file.specs.Files.{Part, with_line, sections_of};
ghost use Rattle.config_file.specs.Reading.{no_part, completed, due};
ghost use Rattle.config_file.specs.Lines.{place_behind};
ghost use Rattle.config_file.specs.Faults.{is_memory};
ghost use Rattle.texts.specs.Calls.{Answers, Unless};

use crate::line::{Line, Place, line_of};
use crate::{ConfigFault, FileKind, MOST_FILE_BYTES, Section};
use std::alloc::Global;
use texts::{List, OutOfMemory, Text};

/// The sections of a file.
pub fn sections(alloc: Global, kind: FileKind, file: &[u8]) -> Result<List<Section>, ConfigFault>
    ensures { Answers is_memory (λ sections. sections) result (sections_of kind file.now) }
{
    if file.len() > MOST_FILE_BYTES {
        return Err(ConfigFault::Syntax(kind, 0));
    }
    let mut reading = Reading::new(alloc, kind);
    let mut rest = file;
    while let Some((line, more)) = first_line(rest) {
        reading.take(alloc, line)?;
        rest = more;
    }
    Ok(reading.into_sections()?)
}

/// The first line of what is left of a file, without its end, and what comes behind it. Lines end
/// with LF or CR LF; the last one may lack its end.
fn first_line(file: &[u8]) -> Option<(&[u8], &[u8])>
    ensures { MatchOption result (lines file.now ≡ [])
        (λ cut. (lines file.now ≡ cut.0.now ∷ lines cut.1.now) × (length cut.1.now < length file.now)) }
{
    if file.is_empty() {
        return None;
    }
    match feed_at(file) {
        Some(at) => Some((without_return(&file[..at]), &file[at + 1..])),
        None => Some((file, &file[file.len()..])),
    }
}

/// Where the first LF is.
fn feed_at(file: &[u8]) -> Option<usize>
    ensures { result ≡ position (λ b. nat_eq b 10) file.now }
{
    file.iter().position(|b| *b == b'\n')
}

/// A line without the carriage return at its end.
fn without_return(line: &[u8]) -> &[u8]
    ensures { result.now ≡ strip_carriage_return line.now }
{
    match line {
        [front @ .., b'\r'] => front,
        _ => line,
    }
}

/// A file of which some lines are read.
#[derive(Debug, Drop)]
struct Reading {
    kind: FileKind,
    place: Place,
    /// The number of the next line, from 1.
    number: u64,
    /// The sections before the last one.
    closed: List<Section>,
    /// The last one.
    current: Option<Section>,
}

impl Reading {
    fn new(alloc: Global, kind: FileKind) -> Reading
        ensures kind { result.kind ≡ kind }
        ensures place { result.place ≡ place.Outside }
        ensures number { result.number ≡ 1 }
        ensures empty { (part : Part) → completed result.closed result.current part ≡ part.sections }
    {
        Reading {
            kind,
            place: Place::Outside,
            number: 1,
            closed: List::new(alloc),
            current: None,
        }
    }

    /// Takes the next line.
    fn take(&mut self, alloc: Global, bytes: &[u8]) -> Result<(), ConfigFault>
        requires { self.old.number + 1 < 2 ^ 64 }
        ensures number { OnOk result (self.new.number ≡ self.old.number + 1) }
        ensures ok { OnOk result ((more : List (List ℕ)) → due self.old (bytes.now ∷ more) ≡ due self.new more) }
        ensures err { IfErr result (λ e. Unless (is_memory e)
            ((more : List (List ℕ)) → due self.old (bytes.now ∷ more) ≡ Err e)) }
    {
        let number = self.number;
        match line_of(alloc, self.kind, self.place, bytes)? {
            Some(line) => self.put(alloc, line)?,
            None => return Err(ConfigFault::Syntax(self.kind, number)),
        }
        self.number = number + 1;
        Ok(())
    }

    /// Puts a line behind those that are read.
    fn put(&mut self, alloc: Global, line: Line) -> Result<(), OutOfMemory>
        ensures same { (self.new.kind ≡ self.old.kind) × (self.new.number ≡ self.old.number) }
        ensures place { OnOk result (self.new.place ≡ place_behind self.old.place line) }
        ensures added { OnOk result ((part : Part) → completed self.new.closed self.new.current part
            ≡ completed self.old.closed self.old.current (with_line line part)) }
    {
        match line {
            Line::Nothing => {}
            Line::Head(profile) => {
                self.close()?;
                self.current = Some(Section {
                    profile,
                    keys: List::new(alloc),
                });
                self.place = Place::Opened;
            }
            Line::Key(blanks, key, value) => {
                self.add(key, value)?;
                self.place = Place::Behind(blanks);
            }
        }
        Ok(())
    }

    /// Adds a key to the last section.
    fn add(&mut self, key: Text, value: Text) -> Result<(), OutOfMemory>
        ensures same { self.new ≡ record self.old { current = self.new.current } }
        ensures added { OnOk result ((part : Part) → completed self.new.closed self.new.current part
            ≡ completed self.old.closed self.old.current (record { keys = (key, value) ∷ part.keys; sections = part.sections })) }
    {
        if let Some(mut section) = self.current.take() {
            section.keys.push((key, value))?;
            self.current = Some(section);
        }
        Ok(())
    }

    /// Puts the last section behind the closed ones.
    fn close(&mut self) -> Result<(), OutOfMemory>
        ensures same { self.new ≡ record self.old { closed = self.new.closed; current = None } }
        ensures closed { OnOk result (self.new.closed ≡ completed self.old.closed self.old.current no_part) }
    {
        if let Some(section) = self.current.take() {
            self.closed.push(section)?;
        }
        Ok(())
    }

    fn into_sections(mut self) -> Result<List<Section>, OutOfMemory>
        ensures { IfOk result (λ sections. sections ≡ completed self.closed self.current no_part) }
    {
        self.close()?;
        Ok(self.closed)
    }
}
