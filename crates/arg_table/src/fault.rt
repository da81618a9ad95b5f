ghost use Rattle.std.specs.Prelude.{◌≡◌, Some};
ghost use Rattle.arg_table.specs.FaultText.{usage_text, dashed, named};
ghost use Rattle.arg_table.specs.declared.fault.UsageFault.TheVariants as fault;

use std::alloc::{AllocError, AllocFailed};
use std::error::Error;
use std::fmt;
use texts::{List, OutOfMemory, Text};

/// What is wrong with a command line: the first fault. Options are named without their dashes.
#[derive(Debug, Drop)]
pub enum UsageFault {
    /// Before the command is complete stands an option that is no settings option.
    UnknownOption(Text),
    /// A value is wanted and not there.
    MissingValue(Text),
    /// The words end before the command is complete.
    NoCommand,
    /// No model file is of this service.
    UnknownService(Text),
    /// No model file has this operation or waiter.
    UnknownOperation(Text),
    /// The operation has no such option.
    UnknownArgument(Text),
    /// These arguments are needed, in the model's order.
    MissingArguments(List<Text>),
    /// Nothing takes this word.
    ExtraWord(Text),
    /// A flag has a value, or the value is none of the choices.
    BadChoice(Text),
    /// The value is no number, or one out of range.
    BadCount(Text),
    /// This option for pages stands beside `--no-paginate`, or beside an argument that pages set.
    PaginateConflict(Text),
    OutOfMemory,
}

impl fmt::Display for UsageFault {
    ghost output = { λ fault. Some (usage_text fault) };

    fn fmt<W: fmt::Write>(&self, f: &mut fmt::Formatter<W>) -> fmt::Result {
        match self {
            UsageFault::UnknownOption(name) | UsageFault::UnknownArgument(name) => {
                write!(f, "Unknown options: --{name}")
            }
            UsageFault::ExtraWord(word) => write!(f, "Unknown options: {word}"),
            UsageFault::MissingValue(name) => {
                write!(f, "argument {}: expected one argument", Named(name))
            }
            UsageFault::BadChoice(name) | UsageFault::BadCount(name) => {
                write!(f, "argument {}: invalid value", Named(name))
            }
            UsageFault::NoCommand => f.write_str("too few arguments"),
            UsageFault::UnknownService(name) | UsageFault::UnknownOperation(name) => {
                write!(f, "Invalid choice: '{name}'")
            }
            UsageFault::MissingArguments(names) => write!(
                f,
                "the following arguments are required: {}",
                Listed(names.as_slice())
            ),
            UsageFault::PaginateConflict(name) => write!(
                f,
                "Cannot specify --no-paginate along with pagination arguments: --{name}"
            ),
            UsageFault::OutOfMemory => f.write_str("Out of memory"),
        }
    }
}

impl Error for UsageFault {}

/// The name of an option as it is told: `self-drill` is a command and has no dashes.
#[derive(Clone, Copy)]
struct Named<'a>(&'a Text);

impl fmt::Display for Named<'_> {
    ghost output = { λ name. Some (named name.0.now) };

    fn fmt<W: fmt::Write>(&self, f: &mut fmt::Formatter<W>) -> fmt::Result {
        let name = self.0;
        if name.is("self-drill") {
            return f.write_str("self-drill");
        }
        write!(f, "--{name}")
    }
}

/// Names of options with a comma between each two.
#[derive(Clone, Copy)]
struct Listed<'a>(&'a [Text]);

impl fmt::Display for Listed<'_> {
    ghost use Rattle.std.specs.Prelude.{map, codes};
    ghost use Rattle.texts.specs.Joined.{joined};

    ghost output = { λ names. Some (joined (codes ", ") (map dashed names.0.now)) };

    fn fmt<W: fmt::Write>(&self, f: &mut fmt::Formatter<W>) -> fmt::Result {
        let Some((first, others)) = self.0.split_first() else {
            return Ok(());
        };
        write!(f, "--{first}")?;
        for name in others {
            write!(f, ", --{name}")?;
        }
        Ok(())
    }
}

impl From<OutOfMemory> for UsageFault {
    ghost from_gives = { λ _ e. e ≡ fault.OutOfMemory };

    fn from(_error: OutOfMemory) -> UsageFault {
        UsageFault::OutOfMemory
    }
}

impl From<AllocError> for UsageFault {
    ghost from_gives = { λ _ e. e ≡ fault.OutOfMemory };

    fn from(_error: AllocError) -> UsageFault {
        UsageFault::OutOfMemory
    }
}

impl<T: Drop> From<AllocFailed<T>> for UsageFault {
    ghost from_gives = { λ _ e. e ≡ fault.OutOfMemory };

    fn from(_error: AllocFailed<T>) -> UsageFault {
        UsageFault::OutOfMemory
    }
}
