//! Why a call on a session's statements refuses.
ghost use Rattle.std.specs.Prelude.{◌≡◌};

use std::alloc::AllocError;

/// The handle names no open statement.
#[derive(Clone, Copy, Debug, PartialEq, Eq)]
pub struct UnknownHandle;

/// Why a call that takes memory does nothing to a statement.
#[derive(Clone, Copy, Debug, PartialEq, Eq)]
pub enum HandleFault {
    /// The handle names no statement, or for most calls none that is open.
    UnknownHandle,
    /// There is not enough memory.
    OutOfMemory,
}

impl From<AllocError> for HandleFault {
    ghost use Rattle.rws_handles.specs.declared.fault.HandleFault.TheVariants.{OutOfMemory};

    ghost from_gives = { λ error fault. fault ≡ OutOfMemory };

    fn from(_error: AllocError) -> HandleFault {
        HandleFault::OutOfMemory
    }
}

/// Why an execute is refused, in the order in which the causes are looked for.
#[derive(Clone, Copy, Debug, PartialEq, Eq)]
pub enum ExecuteFault {
    /// It names no open statement, or ends within the statement's number.
    UnknownHandle,
    /// It asks for a cursor.
    CursorAsked,
    /// It isn't in the layout of COM_STMT_EXECUTE, or lacks types that were never given.
    BadExecute,
    /// There is not enough memory.
    OutOfMemory,
}

impl From<AllocError> for ExecuteFault {
    ghost use Rattle.rws_handles.specs.declared.fault.ExecuteFault.TheVariants.{OutOfMemory};

    ghost from_gives = { λ error fault. fault ≡ OutOfMemory };

    fn from(_error: AllocError) -> ExecuteFault {
        ExecuteFault::OutOfMemory
    }
}

/// Why commands aren't put on a link.
#[derive(Clone, Copy, Debug, PartialEq, Eq)]
pub enum OnWireFault {
    /// The statement has no id on the link.
    NotOnLink,
    /// There is not enough memory.
    OutOfMemory,
}

impl From<AllocError> for OnWireFault {
    ghost use Rattle.rws_handles.specs.declared.fault.OnWireFault.TheVariants.{OutOfMemory};

    ghost from_gives = { λ error fault. fault ≡ OutOfMemory };

    fn from(_error: AllocError) -> OnWireFault {
        OnWireFault::OutOfMemory
    }
}
