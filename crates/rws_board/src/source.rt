//! Where bytes come from.
ghost use Rattle.std.specs.Prelude.{◌≤◌, ℕ, List, Option, length, IfOk, OnErr};
ghost use Rattle.std.specs.Io.KnownBytes.{ReadConsumes};
ghost use Rattle.rws_board.specs.Faults.{Rises};

use crate::Failed;

/// A stream of bytes to be read, which counts its faults.
pub trait Source {
    /// The bytes still to come, where they are known.
    ghost left: { Self → Option (List ℕ) };

    /// How many calls failed. The count stays at the greatest `u64`.
    ghost faults: { Self → ℕ };

    /// Reads some bytes into the front of the buffer, and says how many. None, with room for some, is the
    /// end. A call that fails leaves all that is known to come.
    fn read(&mut self, buffer: &mut [u8]) -> Result<usize, Failed>
        ensures within { IfOk result (λ count. count ≤ length buffer.new) }
        ensures bytes { ReadConsumes (left self.old) (left self.new) result buffer.new }
        ensures counts { faults self.old ≤ faults self.new }
        ensures failed { OnErr result (Rises (faults self.old) (faults self.new)) };
}
