//! Where whole files come from.
ghost use Rattle.std.specs.Prelude.{◌≡◌, ◌≤◌, ℕ, List, Option, IfOk, IsErrOf};
ghost use Rattle.rws_board.specs.Faults.{Rises};
ghost use Rattle.rws_board.specs.Files.{Holds};

use crate::Failed;
use rws_wire::Text;
use std::alloc::{AllocError, Global};

/// Files that are read whole by their paths, with a count of the calls that failed.
pub trait Files {
    /// What each path holds, where that is known; a path may hold nothing.
    ghost files: { Self → Option (List ℕ → Option (List ℕ)) };

    /// How many calls failed. The count stays at the greatest `u64`.
    ghost faults: { Self → ℕ };

    /// The bytes of a file. A path that holds none is a fault like any other.
    fn read(&mut self, alloc: Global, path: &str) -> Result<Text, FileFault>
        ensures holds { IfOk result (λ text. Holds (files self.old) path.now text) }
        ensures kept { files self.new ≡ files self.old }
        ensures counts { faults self.old ≤ faults self.new }
        ensures failed { IsErrOf result FileFault.Failed → Rises (faults self.old) (faults self.new) };
}

/// Why a file wasn't read.
#[derive(Clone, Copy, Debug, PartialEq, Eq)]
pub enum FileFault {
    /// It couldn't be read, and the count of faults rose.
    Failed,
    /// There was no memory for its bytes; that says nothing of the file.
    OutOfMemory,
}

impl From<Failed> for FileFault {
    ghost use Rattle.rws_board.specs.declared.files.FileFault.TheVariants.{Failed};

    ghost from_gives = { λ _ fault. fault ≡ Failed };

    fn from(_error: Failed) -> FileFault {
        FileFault::Failed
    }
}

impl From<AllocError> for FileFault {
    ghost use Rattle.rws_board.specs.declared.files.FileFault.TheVariants.{OutOfMemory};

    ghost from_gives = { λ _ fault. fault ≡ OutOfMemory };

    fn from(_error: AllocError) -> FileFault {
        FileFault::OutOfMemory
    }
}
