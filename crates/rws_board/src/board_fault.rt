//! Why a call of a board failed.
ghost use Rattle.std.specs.Prelude.{◌≡◌};

use crate::Failed;
use std::alloc::AllocError;

/// Why a call of a board failed.
#[derive(Clone, Copy, Debug, PartialEq, Eq)]
pub enum BoardFault {
    /// The outside failed, and the board's count of faults rose.
    Failed,
    OutOfMemory,
}

impl From<Failed> for BoardFault {
    ghost use Rattle.rws_board.specs.declared.board_fault.BoardFault.TheVariants.{Failed};

    ghost from_gives = { λ _ fault. fault ≡ Failed };

    fn from(_error: Failed) -> BoardFault {
        BoardFault::Failed
    }
}

impl From<AllocError> for BoardFault {
    ghost use Rattle.rws_board.specs.declared.board_fault.BoardFault.TheVariants.{OutOfMemory};

    ghost from_gives = { λ _ fault. fault ≡ OutOfMemory };

    fn from(_error: AllocError) -> BoardFault {
        BoardFault::OutOfMemory
    }
}
