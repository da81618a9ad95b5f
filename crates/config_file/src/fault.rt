ghost use Rattle.std.specs.Prelude.{◌≡◌, Some};
ghost use Rattle.config_file.specs.FaultText.{kind_text, fault_text};
ghost use Rattle.config_file.specs.declared.fault.ConfigFault.TheVariants as fault;

use std::alloc::AllocError;
use std::error::Error;
use std::fmt;
use texts::{OutOfMemory, Text};

/// One of the two settings files.
#[derive(Clone, Copy, Debug, PartialEq, Eq)]
pub enum FileKind {
    Config,
    Credentials,
}

impl fmt::Display for FileKind {
    ghost output = { λ kind. Some (kind_text kind) };

    fn fmt<W: fmt::Write>(&self, f: &mut fmt::Formatter<W>) -> fmt::Result {
        match self {
            FileKind::Config => f.write_str("config"),
            FileKind::Credentials => f.write_str("credentials"),
        }
    }
}

/// What is wrong with the settings.
#[derive(Debug, Drop)]
pub enum ConfigFault {
    /// The line of a file that is in no form, counted from 1; or 0 where the file is too long.
    Syntax(FileKind, u64),
    /// The profile that is named is in neither file.
    ProfileAbsent(Text),
    /// The value that counts for the setting of this name is none of its values.
    BadSetting(Text),
    OutOfMemory,
}

impl fmt::Display for ConfigFault {
    ghost output = { λ fault. Some (fault_text fault) };

    fn fmt<W: fmt::Write>(&self, f: &mut fmt::Formatter<W>) -> fmt::Result {
        match self {
            ConfigFault::Syntax(kind, line) => {
                write!(f, "Unable to parse {kind} file: line {line}")
            }
            ConfigFault::ProfileAbsent(name) => {
                write!(f, "The config profile ({name}) could not be found")
            }
            ConfigFault::BadSetting(name) => write!(f, "Invalid value for setting {name}"),
            ConfigFault::OutOfMemory => f.write_str("Out of memory"),
        }
    }
}

impl Error for ConfigFault {}

impl From<OutOfMemory> for ConfigFault {
    ghost from_gives = { λ _ e. e ≡ fault.OutOfMemory };

    fn from(_error: OutOfMemory) -> ConfigFault {
        ConfigFault::OutOfMemory
    }
}

impl From<AllocError> for ConfigFault {
    ghost from_gives = { λ _ e. e ≡ fault.OutOfMemory };

    fn from(_error: AllocError) -> ConfigFault {
        ConfigFault::OutOfMemory
    }
}
