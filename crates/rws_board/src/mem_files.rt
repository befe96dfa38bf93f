//! Files in memory.
ghost use Rattle.std.specs.Prelude.{◌≡◌, ◌≤◌, ◌↔◌, ◌⊎◌, Some, None, Contains, IfOk, IsErrOf};
ghost use Rattle.rws_board.specs.Faults.{Rises, one_more};
ghost use Rattle.rws_board.specs.Files.{Holds, bytes_at};

use crate::planned_faults::PlannedFaults;
use crate::{CallList, FileFault, FileList, Files};
use rws_wire::Text;
use std::alloc::Global;
use std::marker::Model;

/// These files, of which some calls fail.
#[derive(Debug, Drop)]
pub struct MemFiles {
    files: FileList,
    plan: PlannedFaults,
}

impl Model for MemFiles {
    ghost use Rattle.rws_board.specs.Files.{Shelf};

    ghost Value = { Shelf };

    ghost view = { λ s. record { files = s.files; fails = s.plan.fails; calls = s.plan.calls; faults = s.plan.faults } };
}

impl MemFiles {
    /// `fails` are the numbers, from 0, of the calls that are to fail.
    pub fn new(files: FileList, fails: CallList) -> MemFiles
        ensures { result ≡ record { files = files; fails = fails; calls = 0; faults = 0 } }
    {
        MemFiles {
            files,
            plan: PlannedFaults::new(fails),
        }
    }
}

impl Files for MemFiles {
    ghost files = { λ s. Some (bytes_at s.files) };

    ghost faults = { λ s. s.faults };

    fn read(&mut self, alloc: Global, path: &str) -> Result<Text, FileFault>
        ensures holds { IfOk result (λ text. Holds (Some (bytes_at self.old.files)) path.now text) }
        ensures kept { Some (bytes_at self.new.files) ≡ Some (bytes_at self.old.files) }
        ensures counts { self.old.faults ≤ self.new.faults }
        ensures failed { IsErrOf result FileFault.Failed → Rises self.old.faults self.new.faults }
        ensures refused { IsErrOf result FileFault.Failed ↔ (Contains self.old.fails self.old.calls ⊎ (bytes_at self.old.files path.now ≡ None)) }
        ensures calls { self.new.calls ≡ one_more self.old.calls }
        ensures fails { self.new.fails ≡ self.old.fails }
    {
        self.plan.call()?;
        match self.files.bytes_at(path.as_bytes()) {
            Some(bytes) => Ok(Text::from_slice(alloc, bytes)?),
            None => Err(FileFault::from(self.plan.fail())),
        }
    }
}
