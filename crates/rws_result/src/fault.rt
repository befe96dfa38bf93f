//! Why payloads are not read as rows.
ghost use Rattle.std.specs.Prelude.{◌≡◌};
ghost use Rattle.rws_result.specs.declared.fault.ReadFault.TheVariants.{OutOfMemory};

use std::alloc::AllocError;

/// Why payloads were not read.
#[derive(Clone, Copy, Debug, PartialEq, Eq)]
pub enum ReadFault {
    /// They aren't one text result set.
    NotAResult,
    /// They are one, and there was no memory for its rows.
    OutOfMemory,
}

impl From<AllocError> for ReadFault {
    ghost from_gives = { λ _ e. e ≡ OutOfMemory };

    fn from(_e: AllocError) -> ReadFault {
        ReadFault::OutOfMemory
    }
}
