ghost use Rattle.std.specs.Prelude.{◌≡◌, ◌≤◌, ◌<◌, ◌↔◌, Option, None, Some, length, IfOk, IfSome, IfNone, OnOk, OnSome, IsErrOf, AllPairs};
ghost use Rattle.std.specs.Option.{option_copied};
ghost use Rattle.aws_world.specs.Told.{Rose, one_more};
ghost use Rattle.aws_world.specs.FaultPlan.{FailsNext, AddsCall, begin};
ghost use Rattle.aws_world.specs.FileTree.{file_at, HasBelow, IsListing, IsLonger};
ghost use Rattle.aws_world.specs.MemFiles.{files_held, plan_of};

use crate::fault_plan::FaultPlan;
use crate::folder::names_below;
use crate::{FileEnd, Files};
use std::alloc::Global;
use texts::{Bytes, List, Text};

/// Files in memory, as pairs of a path and bytes. The first pair of a path counts.
#[derive(Debug, Drop)]
pub struct MemFiles {
    files: List<(Text, Bytes)>,
    plan: FaultPlan,
}

impl MemFiles {
    /// These files; calls of these numbers fail, where calls of `list` and `read` are counted
    /// together. It takes no memory.
    pub fn new(_alloc: Global, files: List<(Text, Bytes)>, fails: List<u64>) -> MemFiles
        ensures told { ⟦<MemFiles as Files>⟧.told result ≡ Some files }
        ensures faults { ⟦<MemFiles as Files>⟧.faults result ≡ 0 }
        ensures plan { plan_of result ≡ begin fails }
    {
        MemFiles {
            files,
            plan: FaultPlan::new(fails),
        }
    }

    pub fn faults(&self) -> u64
        ensures { result ≡ ⟦<MemFiles as Files>⟧.faults self.now }
    {
        self.plan.faults()
    }
}

impl Files for MemFiles {
    ghost told = { λ files. Some (files_held files) };

    ghost faults = { λ files. (plan_of files).faults };

    fn list(&mut self, alloc: Global, folder: &Text) -> Result<List<Text>, FileEnd>
        ensures kept { files_held self.new ≡ files_held self.old }
        ensures names { IfOk result (IsListing folder.now (files_held self.old)) }
        ensures found { OnOk result (HasBelow folder.now (files_held self.old)) }
        ensures absent { IsErrOf result FileEnd.Absent → ¬ HasBelow folder.now (files_held self.old) }
        ensures never_long { ¬ IsErrOf result FileEnd.TooLong }
        ensures failed { IsErrOf result FileEnd.Failed → Rose (plan_of self.old).faults (plan_of self.new).faults }
        ensures later { (plan_of self.old).faults ≤ (plan_of self.new).faults }

        // What these files do beyond any files.
        ensures planned { IsErrOf result FileEnd.Failed ↔ FailsNext (plan_of self.old) }
        ensures counted { AddsCall (plan_of self.old) (plan_of self.new) }
        ensures risen { IsErrOf result FileEnd.Failed → (plan_of self.new).faults ≡ one_more (plan_of self.old).faults }
        ensures level { ¬ IsErrOf result FileEnd.Failed → (plan_of self.new).faults ≡ (plan_of self.old).faults }
    {
        if self.plan.next_fails() {
            self.plan.count_fault();
            return Err(FileEnd::Failed);
        }
        names_below(alloc, folder, self.files.as_slice())?.ok_or(FileEnd::Absent)
    }

    fn read(&mut self, alloc: Global, path: &Text, limit: u64) -> Result<Bytes, FileEnd>
        ensures kept { files_held self.new ≡ files_held self.old }
        ensures whole { IfOk result (λ bytes. file_at path.now (files_held self.old) ≡ Some bytes) }
        ensures within { IfOk result (λ bytes. length bytes ≤ limit) }
        ensures absent { IsErrOf result FileEnd.Absent → file_at path.now (files_held self.old) ≡ None }
        ensures too_long { IsErrOf result FileEnd.TooLong → IsLonger limit (file_at path.now (files_held self.old)) }
        ensures failed { IsErrOf result FileEnd.Failed → Rose (plan_of self.old).faults (plan_of self.new).faults }
        ensures later { (plan_of self.old).faults ≤ (plan_of self.new).faults }

        // What these files do beyond any files.
        ensures planned { IsErrOf result FileEnd.Failed ↔ FailsNext (plan_of self.old) }
        ensures counted { AddsCall (plan_of self.old) (plan_of self.new) }
        ensures risen { IsErrOf result FileEnd.Failed → (plan_of self.new).faults ≡ one_more (plan_of self.old).faults }
        ensures level { ¬ IsErrOf result FileEnd.Failed → (plan_of self.new).faults ≡ (plan_of self.old).faults }
    {
        if self.plan.next_fails() {
            self.plan.count_fault();
            return Err(FileEnd::Failed);
        }
        let Some(bytes) = find(self.files.as_slice(), path) else {
            return Err(FileEnd::Absent);
        };
        if bytes.len() as u64 > limit {
            return Err(FileEnd::TooLong);
        }
        Ok(Bytes::from_slice(alloc, bytes.as_slice())?)
    }
}

/// The bytes at the first pair of a path.
fn find<'a>(files: &'a [(Text, Bytes)], path: &Text) -> Option<&'a Bytes>
    ensures { option_copied result ≡ file_at path.now files.now }
{
    for (other, bytes) in files {
        if other == path {
            return Some(bytes);
        }
    }
    None
}
