ghost use Rattle.std.specs.Prelude.{◌≡◌, Some};
ghost use Rattle.shape_values.specs.declared.fault.ArgFault.TheVariants.{OutOfMemory as out_of_memory};
ghost use Rattle.shape_values.specs.FaultText.{fault_text, kind_text};

use std::error::Error;
use std::fmt;
use texts::{OutOfMemory, Text};

/// What is wrong with a value.
#[derive(Debug, Drop)]
pub enum ValueKind {
    /// It is no whole number of 64 bits.
    Number,
    /// It is no time in the years 0001 to 9999.
    Time,
    /// It is neither `true` nor `false`.
    Flag,
    /// It is no JSON document, with the offset of its fault in bytes.
    Json(u64),
    /// It is no shorthand, with the offset of its fault in bytes.
    Shorthand(u64),
    /// More or less stands where one value is wanted.
    ExpectedOne,
    /// Only JSON is taken here.
    NeedsJson,
    /// The bytes of its file are no text in UTF-8.
    NotUtf8,
    /// Its file isn't there.
    FileAbsent(Text),
    /// Its file has more bytes than the limit.
    FileTooLong(Text),
    /// It is wanted as a fraction in binary, which is never taken.
    Float,
    /// It is no JSON object.
    NotAnObject,
    /// It sets what an option for pages sets.
    PagingSet,
}

/// Why arguments give no value.
#[derive(Debug, Drop)]
pub enum ArgFault {
    /// What stands at this path is wrong. A path is the name of a member, and below it `.` and a name or
    /// a place in brackets, as in `Tags[0].Key`.
    Bad(Text, ValueKind),
    /// The file at this path couldn't be read.
    File(Text),
    OutOfMemory,
}

impl From<OutOfMemory> for ArgFault {
    ghost from_gives = { λ _ fault. fault ≡ out_of_memory };

    fn from(_error: OutOfMemory) -> ArgFault {
        ArgFault::OutOfMemory
    }
}

impl fmt::Display for ValueKind {
    ghost output = { λ kind. Some (kind_text kind) };

    fn fmt<W: fmt::Write>(&self, f: &mut fmt::Formatter<W>) -> fmt::Result {
        f.write_str(match self {
            ValueKind::Number => "Number",
            ValueKind::Time => "Time",
            ValueKind::Flag => "Flag",
            ValueKind::Json(_) => "Json",
            ValueKind::Shorthand(_) => "Shorthand",
            ValueKind::ExpectedOne => "ExpectedOne",
            ValueKind::NeedsJson => "NeedsJson",
            ValueKind::NotUtf8 => "NotUtf8",
            ValueKind::FileAbsent(_) => "FileAbsent",
            ValueKind::FileTooLong(_) => "FileTooLong",
            ValueKind::Float => "Float",
            ValueKind::NotAnObject => "NotAnObject",
            ValueKind::PagingSet => "PagingSet",
        })
    }
}

impl fmt::Display for ArgFault {
    ghost output = { λ fault. Some (fault_text fault) };

    fn fmt<W: fmt::Write>(&self, f: &mut fmt::Formatter<W>) -> fmt::Result {
        match self {
            ArgFault::Bad(path, kind) => write!(f, "Error parsing parameter {path}: {kind}"),
            ArgFault::File(path) => write!(f, "Error reading {path}"),
            ArgFault::OutOfMemory => f.write_str("Out of memory"),
        }
    }
}

impl Error for ArgFault {}
