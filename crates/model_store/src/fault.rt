ghost use Rattle.std.specs.Prelude.{◌≡◌};
ghost use Rattle.model_store.specs.declared.fault.Unread.TheVariants as unread;

use texts::{OutOfMemory, Text};

/// Why a search of the files gives nothing.
#[derive(Debug, Drop)]
pub enum Unread {
    /// No folder of models has a model file of the service with this name.
    UnknownService(Text),
    /// The file of this name breaks a rule of its kind at this place: `too long`, `json` or `absent`,
    /// or the keys and positions that lead to its first fault.
    BadModel(Text, Text),
    /// The file or folder at this path could not be read.
    FileFault(Text),
    OutOfMemory,
}

impl From<OutOfMemory> for Unread {
    ghost from_gives = { λ _ e. e ≡ unread.OutOfMemory };

    fn from(_error: OutOfMemory) -> Unread {
        Unread::OutOfMemory
    }
}
