//! Why a history doesn't take an entry.
ghost use Rattle.std.specs.Prelude.{◌≡◌};
ghost use Rattle.rws_history.specs.declared.fault.PushFault.TheVariants.{OutOfMemory};

use std::alloc::AllocError;

/// Why an entry wasn't added. The entry is gone then, and the history as before.
#[derive(Clone, Copy, Debug, PartialEq, Eq)]
pub enum PushFault {
    /// The history has as many entries as its limit.
    Full,
    /// There was no memory for one more entry.
    OutOfMemory,
}

impl From<AllocError> for PushFault {
    ghost from_gives = { λ _ e. e ≡ OutOfMemory };

    fn from(_e: AllocError) -> PushFault {
        PushFault::OutOfMemory
    }
}
