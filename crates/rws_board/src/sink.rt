//! Where bytes go.
ghost use Rattle.std.specs.Prelude.{◌≤◌, ℕ, List, Option, OnErr};
ghost use Rattle.rws_board.specs.Faults.{Rises};
ghost use Rattle.rws_board.specs.Put.{PutAppends};

use crate::Failed;

/// A stream of bytes to be written, which counts its faults.
pub trait Sink {
    /// The bytes taken so far, where they are known.
    ghost taken: { Self → Option (List ℕ) };

    /// How many calls failed. The count stays at the greatest `u64`.
    ghost faults: { Self → ℕ };

    /// Takes the whole piece. A call that fails took a front of it.
    fn put(&mut self, piece: &[u8]) -> Result<(), Failed>
        ensures bytes { PutAppends (taken self.old) (taken self.new) result piece.now }
        ensures counts { faults self.old ≤ faults self.new }
        ensures failed { OnErr result (Rises (faults self.old) (faults self.new)) };
}
