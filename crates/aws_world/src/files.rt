ghost use Rattle.std.specs.Prelude.{◌≡◌, ℕ, ◌≤◌, Option, None, Some, List, length, IfOk, IfSome, OnOk, IsErrOf};
ghost use Rattle.aws_world.specs.Told.{Rose};
ghost use Rattle.aws_world.specs.FileTree.{file_at, HasBelow, IsListing, IsLonger};

use std::alloc::Global;
use texts::{Bytes, List, OutOfMemory, Text};

/// Why a file or a folder could not be read.
#[derive(Clone, Copy, Debug, PartialEq, Eq)]
pub enum FileEnd {
    /// Nothing stands there.
    Absent,
    /// The file has more bytes than the limit.
    TooLong,
    /// The reading failed.
    Failed,
    OutOfMemory,
}

impl From<OutOfMemory> for FileEnd {
    ghost use Rattle.std.specs.Prelude.{◌≡◌};
    ghost use Rattle.aws_world.specs.declared.files.FileEnd.TheVariants.{OutOfMemory as out_of_memory};

    ghost from_gives = { λ _ end. end ≡ out_of_memory };

    fn from(_error: OutOfMemory) -> FileEnd {
        FileEnd::OutOfMemory
    }
}

/// Files that can be read and don't change.
pub trait Files {
    /// Each file's path and its bytes, where the object tells them.
    ghost told: { Self → Option (List (List ℕ × List ℕ)) };

    /// How many calls have failed.
    ghost faults: { Self → ℕ };

    /// The names directly below a folder, each once, in the order of their bytes.
    fn list(&mut self, alloc: Global, folder: &Text) -> Result<List<Text>, FileEnd>
        ensures kept { told self.new ≡ told self.old }
        ensures names { IfSome (told self.old) (λ files. IfOk result (IsListing folder.now files)) }
        ensures found { IfSome (told self.old) (λ files. OnOk result (HasBelow folder.now files)) }
        ensures absent { IfSome (told self.old)
            (λ files. IsErrOf result FileEnd.Absent → ¬ HasBelow folder.now files) }
        ensures never_long { ¬ IsErrOf result FileEnd.TooLong }
        ensures failed { IsErrOf result FileEnd.Failed → Rose (faults self.old) (faults self.new) }
        ensures later { faults self.old ≤ faults self.new };

    /// All bytes of a file, which has no more than the limit.
    fn read(&mut self, alloc: Global, path: &Text, limit: u64) -> Result<Bytes, FileEnd>
        ensures kept { told self.new ≡ told self.old }
        ensures whole { IfSome (told self.old)
            (λ files. IfOk result (λ bytes. file_at path.now files ≡ Some bytes)) }
        ensures within { IfOk result (λ bytes. length bytes ≤ limit) }
        ensures absent { IfSome (told self.old)
            (λ files. IsErrOf result FileEnd.Absent → file_at path.now files ≡ None) }
        ensures too_long { IfSome (told self.old)
            (λ files. IsErrOf result FileEnd.TooLong → IsLonger limit (file_at path.now files)) }
        ensures failed { IsErrOf result FileEnd.Failed → Rose (faults self.old) (faults self.new) }
        ensures later { faults self.old ≤ faults self.new };
}
