//! Why an event couldn't be read.
ghost use Rattle.std.specs.Prelude.{◌≡◌};

use rws_board::Failed;
use std::alloc::AllocError;

/// Why an event couldn't be read.
#[derive(Clone, Copy, Debug, PartialEq, Eq)]
pub enum ReadError {
    /// The source failed, and its count of faults rose.
    Failed,
    OutOfMemory,
}

impl From<Failed> for ReadError {
    ghost use Rattle.rws_trace.specs.declared.read_error.ReadError.TheVariants.{Failed};

    ghost from_gives = { λ _ e. e ≡ Failed };

    fn from(_error: Failed) -> ReadError {
        ReadError::Failed
    }
}

impl From<AllocError> for ReadError {
    ghost use Rattle.rws_trace.specs.declared.read_error.ReadError.TheVariants.{OutOfMemory};

    ghost from_gives = { λ _ e. e ≡ OutOfMemory };

    fn from(_error: AllocError) -> ReadError {
        ReadError::OutOfMemory
    }
}
