ghost use Rattle.std.specs.Prelude.{◌≡◌};
ghost use Rattle.aws_main.specs.declared.causes.Unread.TheVariants as unread;
ghost use Rattle.aws_main.specs.declared.causes.Unbuilt.TheVariants as unbuilt;
ghost use Rattle.aws_main.specs.Causes.{status_of, unread_of, unread_by, unanswered_of, cause_of_unread, cause_of_unanswered};

use aws_world::LinkFault;
use json_doc::{OutOfMemory, Text};
use service_model::Refusal;

/// Why a command ended.
#[derive(Debug, Drop)]
pub enum Cause {
    /// All of the work was done.
    Done,
    /// The command needs a part that isn't built.
    NotBuilt,
    /// The words name what no model file has.
    Usage(UsageFault),
    /// The model file of this name breaks a rule of models at this place.
    BadModel(Text, Text),
    /// The model's operation can't be called.
    NotAdmitted(Refusal),
    /// The file or folder at this path could not be read.
    FileFault(Text),
    /// The link failed before a reply was whole.
    Lost(LinkFault),
    /// Standard output took nothing more.
    OutFault,
    OutOfMemory,
}

/// What is wrong with the words of a line.
#[derive(Debug, Drop)]
pub enum UsageFault {
    /// No folder of models has a model file of this service.
    UnknownService(Text),
    /// The service's model has no operation of this command name.
    UnknownOperation(Text),
}

impl Cause {
    /// The exit status: 0 after all of the work, 2 where the words are at fault, else 255.
    pub fn status(&self) -> u8
        ensures { result ≡ status_of self.now }
    {
        match self {
            Cause::Done => 0,
            Cause::Usage(_) => 2,
            _ => 255,
        }
    }
}

/// How a command ended.
#[derive(Debug, Drop)]
pub struct Ending {
    /// The exit status.
    pub status: u8,
    pub cause: Cause,
    /// The token to go on from, where a walk over pages was cut.
    pub next: Option<Text>,
    /// How many primary items a walk over pages gave.
    pub items: u64,
}

/// Why a part of the work that reads no file was not done.
#[derive(Clone, Copy, Debug, PartialEq, Eq)]
pub enum Unbuilt {
    NotBuilt,
    OutOfMemory,
}

impl From<OutOfMemory> for Unbuilt {
    ghost from_gives = { λ _ e. e ≡ unbuilt.OutOfMemory };

    fn from(_error: OutOfMemory) -> Unbuilt {
        Unbuilt::OutOfMemory
    }
}

/// Why no request was made.
#[derive(Debug, Drop)]
pub enum Unread {
    NotBuilt,
    Usage(UsageFault),
    BadModel(Text, Text),
    NotAdmitted(Refusal),
    FileFault(Text),
    OutOfMemory,
}

impl From<OutOfMemory> for Unread {
    ghost from_gives = { λ _ e. e ≡ unread.OutOfMemory };

    fn from(_error: OutOfMemory) -> Unread {
        Unread::OutOfMemory
    }
}

impl From<model_store::Unread> for Unread {
    ghost from_gives = { λ e f. f ≡ unread_by e };

    fn from(error: model_store::Unread) -> Unread {
        match error {
            model_store::Unread::UnknownService(service) => {
                Unread::Usage(UsageFault::UnknownService(service))
            }
            model_store::Unread::BadModel(file, place) => Unread::BadModel(file, place),
            model_store::Unread::FileFault(path) => Unread::FileFault(path),
            model_store::Unread::OutOfMemory => Unread::OutOfMemory,
        }
    }
}

impl Unread {
    pub fn into_cause(self) -> Cause
        ensures { result ≡ cause_of_unread self }
    {
        match self {
            Unread::NotBuilt => Cause::NotBuilt,
            Unread::Usage(fault) => Cause::Usage(fault),
            Unread::BadModel(file, place) => Cause::BadModel(file, place),
            Unread::NotAdmitted(refusal) => Cause::NotAdmitted(refusal),
            Unread::FileFault(path) => Cause::FileFault(path),
            Unread::OutOfMemory => Cause::OutOfMemory,
        }
    }
}

impl From<Unbuilt> for Unread {
    ghost from_gives = { λ e f. f ≡ unread_of e };

    fn from(error: Unbuilt) -> Unread {
        match error {
            Unbuilt::NotBuilt => Unread::NotBuilt,
            Unbuilt::OutOfMemory => Unread::OutOfMemory,
        }
    }
}

/// Why a request got no answer.
#[derive(Clone, Copy, Debug, PartialEq, Eq)]
pub enum Unanswered {
    NotBuilt,
    Lost(LinkFault),
    OutOfMemory,
}

impl Unanswered {
    pub fn into_cause(self) -> Cause
        ensures { result ≡ cause_of_unanswered self }
    {
        match self {
            Unanswered::NotBuilt => Cause::NotBuilt,
            Unanswered::Lost(fault) => Cause::Lost(fault),
            Unanswered::OutOfMemory => Cause::OutOfMemory,
        }
    }
}

impl From<Unbuilt> for Unanswered {
    ghost from_gives = { λ e f. f ≡ unanswered_of e };

    fn from(error: Unbuilt) -> Unanswered {
        match error {
            Unbuilt::NotBuilt => Unanswered::NotBuilt,
            Unbuilt::OutOfMemory => Unanswered::OutOfMemory,
        }
    }
}
