//! What makes the boards of a proxy: one for each address that clients connect to, and one for the monitor.
//!
//! As a board, a maker keeps no list that contracts read. What it did between two moments is a relation of its states then,
//! and each call says what it adds to what the maker did before.
ghost use Rattle.std.specs.Prelude.{ℕ, ◌≡◌, ◌+◌, ◌≤◌, List, [], ◌∷◌, ◌++◌, length, MatchResult, IfOk, IsErrOf, OnOk, OnErr};
ghost use Rattle.rws_board.specs.Faults.{Rises};
ghost use Rattle.rws_make.specs.Makers.{CountsBack, Making};
ghost use Rattle.rws_make.specs.Makers.Making.{Made, Refused, TookBack};

use rws_board::Board;
use rws_config::Config;
use std::alloc::{AllocError, Global};

/// Makes boards, and takes them back when their work is done.
pub trait BoardMaker {
    /// The boards that it makes.
    type Made: Board + Send + Drop;

    /// `did old new makings`: between these two states the maker did this, oldest first. A maker of which nothing is known
    /// did anything.
    ghost did: { Self → Self → List (Making Self.Made) → Type 0 };

    /// How many boards it made that it hasn't taken back.
    ghost lent: { Self → ℕ };

    /// How many calls failed, and how many boards came back with failed calls of their own. The count stays at the
    /// greatest `u64`.
    ghost faults: { Self → ℕ };

    /// Makes the board of a place: of the address at this place of the list, or, behind the last one, of the monitor.
    fn make(&mut self, alloc: Global, place: u32, config: &Config) -> Result<Self::Made, MakeFault>
        requires { place ≤ length config.now.listen }
        ensures did { (start : Self) (before : List (Making Self.Made)) → did start self.old before → MatchResult result
            (λ board. did start self.new (before ++ Made place board ∷ []))
            (λ fault. did start self.new (before ++ Refused place fault ∷ [])) }
        ensures fresh { IfOk result (λ board. Self.Made.Board.faults board ≡ 0) }
        ensures lent { OnOk result (lent self.new ≡ lent self.old + 1) }
        ensures kept { OnErr result (lent self.new ≡ lent self.old) }
        ensures counts { faults self.old ≤ faults self.new }
        ensures failed { IsErrOf result MakeFault.Failed → Rises (faults self.old) (faults self.new) };

    /// Takes back a board that was made here. It takes no memory.
    fn take_back(&mut self, board: Self::Made)
        requires { 1 ≤ lent self.old }
        ensures did { (start : Self) (before : List (Making Self.Made)) → did start self.old before → did start self.new (before ++ TookBack board ∷ []) }
        ensures lent { lent self.new + 1 ≡ lent self.old }
        ensures counts { CountsBack (Self.Made.Board.faults board) (faults self.old) (faults self.new) };

    /// A maker that wasn't called did nothing.
    ghost did_nothing: { (maker : Self) → did maker maker [] };
}

/// Why a board wasn't made.
#[derive(Clone, Copy, Debug, PartialEq, Eq)]
pub enum MakeFault {
    /// The outside failed, and the maker's count of faults rose.
    Failed,
    OutOfMemory,
}

impl From<AllocError> for MakeFault {
    ghost use Rattle.rws_make.specs.declared.board_maker.MakeFault.TheVariants.{OutOfMemory};

    ghost from_gives = { λ _ fault. fault ≡ OutOfMemory };

    fn from(_error: AllocError) -> MakeFault {
        MakeFault::OutOfMemory
    }
}
