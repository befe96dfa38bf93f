//! A board in memory with a count of its own, which its maker reads.
ghost use Rattle.std.specs.Prelude.{◌≡◌, ◌≤◌, ◌++◌, [], ◌∷◌, List, IsErrOf, MatchResult};
ghost use Rattle.rws_board.specs.Boards.{ListDid, Standing, given, standing_after};
ghost use Rattle.rws_board.specs.Boards.Standing.{Going, NextFailed, ActFailed};
ghost use Rattle.rws_board.specs.Faults.{Rises};
ghost use Rattle.rws_board.specs.declared.interaction.Interaction.{Interaction};

use rws_board::{Action, Board, BoardFault, Event, Interaction, ListBoard};
use rws_pool::PoolCall;

/// A board in memory that a `ListMaker` made.
#[derive(Debug, Drop)]
pub struct PlannedBoard {
    board: ListBoard,
    faults: u64,
}

impl PlannedBoard {
    /// The same board, of which no call failed.
    pub(crate) fn new(board: ListBoard) -> PlannedBoard
        ensures { result ≡ record { board = board; faults = 0 } }
    {
        PlannedBoard { board, faults: 0 }
    }

    /// What the board did, oldest first. The end isn't there.
    pub fn interactions(&self) -> &[Interaction]
        ensures { result.now ≡ self.now.board.done }
    {
        self.board.interactions()
    }

    /// How many calls failed.
    pub fn faults(&self) -> u64
        ensures { result ≡ self.now.faults }
    {
        self.faults
    }
}

impl Board for PlannedBoard {
    ghost did = { λ old new. ListDid old.board new.board };

    ghost faults = { λ b. b.faults };

    fn next(&mut self, wait_ms: u64) -> Result<Event, BoardFault> {
        match self.board.next(wait_ms) {
            Ok(event) => Ok(event),
            Err(fault) => {
                self.faults = counted(self.faults, fault);
                Err(fault)
            }
        }
    }

    fn act(&mut self, action: Action) -> Result<(), BoardFault> {
        match self.board.act(action) {
            Ok(()) => Ok(()),
            Err(fault) => {
                self.faults = counted(self.faults, fault);
                Err(fault)
            }
        }
    }

    fn tell(&mut self, call: &PoolCall) -> Result<(), BoardFault> {
        match self.board.tell(call) {
            Ok(()) => Ok(()),
            Err(fault) => {
                self.faults = counted(self.faults, fault);
                Err(fault)
            }
        }
    }

    ghost use Rattle.std.specs.Prelude.{refl};
    ghost use Rattle.std.proofs.Common.{sym, append-nil};

    ghost did_nothing = { λ board. (sym (append-nil board.board.done), refl) };
}

/// The count of failed calls after this fault. Want of memory isn't one.
pub fn counted(faults: u64, fault: BoardFault) -> u64
    ensures kept { fault ≡ BoardFault.OutOfMemory → result ≡ faults }
    ensures counts { faults ≤ result }
    ensures failed { fault ≡ BoardFault.Failed → Rises faults result }
{
    match fault {
        BoardFault::Failed => faults.saturating_add(1),
        BoardFault::OutOfMemory => faults,
    }
}
