ghost use Rattle.std.specs.Prelude.{◌≡◌, ◌≤◌, ◌+◌, ◌⊎◌, length, MatchResult, IfOk, IfErr, Ok, Err};
ghost use Rattle.json_doc.specs.declared.doc.Doc.{Doc};
ghost use Rattle.json_doc.specs.declared.read_fault.ReadFault.{ReadFault};
ghost use Rattle.json_doc.specs.declared.read_fault.ReadFault.TheVariants.{OutOfMemory as NoMemory};
ghost use Rattle.json_doc.specs.Documents.{depth_of, IsProper};
ghost use Rattle.json_doc.specs.Faults.{HasFault, IsDeadEnd};
ghost use Rattle.json_doc.specs.Reading.{Stops};
ghost use Rattle.json_doc.specs.Grammar.{Reads};
ghost use Rattle.json_doc.specs.Scan.{Scans};

use crate::read_marks::skip_blanks;
use crate::read_value::read_value;
use crate::stop::Stop;
use crate::{Doc, ReadFault};
use std::alloc::Global;

/// Reads a JSON text (RFC 8259) in UTF-8 without a byte order mark, at most 100 arrays and objects
/// in one another and each number exactly. A key that comes again takes its last value in its first
/// place.
pub fn read(alloc: Global, bytes: &[u8]) -> Result<Doc, ReadFault>
    // What is read is the document of the bytes; where they are one, it is read.
    ensures found { IfOk result (λ d. Reads bytes.now d) }
    ensures depth { IfOk result (λ d. depth_of d ≤ 100) }
    ensures proper { IfOk result IsProper }
    ensures only { (d : Doc) → Reads bytes.now d → MatchResult result (λ e. e ≡ d) (λ e. e ≡ NoMemory) }

    // A fault is the first of the bytes; where they have one, it is answered.
    ensures fault { IfErr result (λ e. (e ≡ NoMemory) ⊎ HasFault bytes.now e) }
    ensures refused { (f : ReadFault) → HasFault bytes.now f
        → MatchResult result (λ _. ⊥) (λ e. (e ≡ f) ⊎ (e ≡ NoMemory)) }
    ensures dead_end { IfErr result (IsDeadEnd bytes.now) }
{
    match read_whole(alloc, bytes) {
        Ok(doc) => Ok(doc),
        Err(Stop::Syntax(left)) => Err(ReadFault::Syntax(offset(bytes, left))),
        Err(Stop::TooDeep(left)) => Err(ReadFault::TooDeep(offset(bytes, left))),
        Err(Stop::NumberTooWide(left)) => Err(ReadFault::NumberTooWide(offset(bytes, left))),
        Err(Stop::OutOfMemory) => Err(ReadFault::OutOfMemory),
    }
}

fn offset(bytes: &[u8], left: usize) -> u64
    requires { left ≤ length bytes.now }
    ensures { result + left ≡ length bytes.now }
{
    (bytes.len() - left) as u64
}

fn read_whole(alloc: Global, bytes: &[u8]) -> Result<Doc, Stop>
    ensures read { IfOk result (λ d. Scans bytes.now (Ok d)) }
    ensures fault { IfErr result (Stops (λ s. Scans bytes.now (Err s))) }
{
    let (doc, rest) = read_value(alloc, 0, skip_blanks(bytes))?;
    let rest = skip_blanks(rest);
    if rest.is_empty() {
        Ok(doc)
    } else {
        Err(Stop::Syntax(rest.len()))
    }
}
