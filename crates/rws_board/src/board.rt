//! What a worker stands on: where its events come from, and where its actions go.
//!
//! A board keeps no list that contracts read. What it did between two moments is a relation of its states then, and each
//! call says what it adds to what the board did before: so a caller may go on for any time and still say all of it.
ghost use Rattle.std.specs.Prelude.{ℕ, ◌≤◌, List, [], ◌∷◌, ◌++◌, MatchResult, IsErrOf};
ghost use Rattle.rws_board.specs.Boards.{Standing, given, standing_after};
ghost use Rattle.rws_board.specs.Boards.Standing.{Going, NextFailed, ActFailed};
ghost use Rattle.rws_board.specs.Faults.{Rises};
ghost use Rattle.rws_board.specs.declared.interaction.Interaction.{Interaction};
ghost use Rattle.rws_board.specs.declared.interaction.Interaction.TheVariants.{Told, Took};

use crate::{Action, BoardFault, Event};
use rws_pool::PoolCall;

/// Where events come from, and where actions go. It keeps the allocator that it was made with. After a fault it isn't
/// called again.
pub trait Board {
    /// `did old new interactions standing`: between these two states the board did this, oldest first, and stands so
    /// now. The end isn't in the list: it is `Ended`. Where the board is `ActFailed`, the last of the list may have been
    /// taken in part, or not at all. A board of which nothing is known did anything.
    ghost did: { Self → Self → List Interaction → Standing → Type 0 };

    /// How many calls failed. The count stays at the greatest `u64`.
    ghost faults: { Self → ℕ };

    /// Gives the next event. A board that waits for one gives a `Clock` after `wait_ms` milliseconds, if it knows the
    /// time.
    fn next(&mut self, wait_ms: u64) -> Result<Event, BoardFault>
        ensures did { (start : Self) (before : List Interaction) → did start self.old before Going → MatchResult result
            (λ event. did start self.new (before ++ given event) (standing_after event))
            (λ fault. did start self.new before (NextFailed fault)) }
        ensures counts { faults self.old ≤ faults self.new }
        ensures failed { IsErrOf result BoardFault.Failed → Rises (faults self.old) (faults self.new) };

    /// Takes an action.
    fn act(&mut self, action: Action) -> Result<(), BoardFault>
        ensures did { (start : Self) (before : List Interaction) → did start self.old before Going → MatchResult result
            (λ _. did start self.new (before ++ Took action ∷ []) Going)
            (λ fault. did start self.new (before ++ Took action ∷ []) (ActFailed fault)) }
        ensures counts { faults self.old ≤ faults self.new }
        ensures failed { IsErrOf result BoardFault.Failed → Rises (faults self.old) (faults self.new) };

    /// Is told of a step of the pool, just after it was taken.
    fn tell(&mut self, call: &PoolCall) -> Result<(), BoardFault>
        ensures did { (start : Self) (before : List Interaction) → did start self.old before Going → MatchResult result
            (λ _. did start self.new (before ++ Told call.now ∷ []) Going)
            (λ fault. did start self.new (before ++ Told call.now ∷ []) (ActFailed fault)) }
        ensures counts { faults self.old ≤ faults self.new }
        ensures failed { IsErrOf result BoardFault.Failed → Rises (faults self.old) (faults self.new) };

    /// A board that wasn't called did nothing.
    ghost did_nothing: { (board : Self) → did board board [] Going };
}
