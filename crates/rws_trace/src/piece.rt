//! The last piece read from a source. What is left of it is held; the source is asked for more only where nothing is.
ghost use Rattle.std.specs.Prelude.{◌≡◌, ◌≤◌, ◌++◌, ℕ, List, [], length, drop, IfOk, OnOk, OnErr};
ghost use Rattle.std.specs.Io.KnownBytes.{Consumes, IsAtEnd};
ghost use Rattle.rws_board.specs.Faults.{Rises};
ghost use Rattle.rws_trace.specs.Reader.{Fills, SameAhead};

use rws_board::{Failed, Source};
use std::alloc::{AllocError, Global};
use std::marker::Model;

/// How many bytes are asked for at once.
const PIECE: usize = 65_536;

/// What is left of the last piece that was read.
#[derive(Drop)]
pub(crate) struct Piece {
    buffer: Vec<u8>,
    start: usize,
    end: usize,
}

impl Model for Piece {
    ghost use Rattle.std.specs.Prelude.{◌≤◌, ◌<◌, ℕ, List, vec_len, slice_range};

    ghost Value = { List ℕ };

    ghost view = { λ piece. slice_range piece.buffer.items piece.start piece.end };

    ghost invariant = { λ piece. (piece.start ≤ piece.end) × (piece.end ≤ vec_len piece.buffer) × (0 < vec_len piece.buffer) };
}

impl Piece {
    pub fn new(alloc: Global) -> Result<Piece, AllocError>
        ensures { IfOk result (λ piece. piece ≡ []) }
    {
        Ok(Piece {
            buffer: vec![in alloc; 0; PIECE]?,
            start: 0,
            end: 0,
        })
    }

    pub fn as_slice(&self) -> &[u8]
        ensures { result.now ≡ self.now }
    {
        &self.buffer[self.start..self.end]
    }

    /// Leaves out the first `count` bytes.
    pub fn skip(&mut self, count: usize)
        requires { count ≤ length self.old }
        ensures { self.new ≡ drop count self.old }
    {
        self.start += count;
    }

    /// Reads a piece where none is left, and then has bytes unless the source is at its end.
    pub fn fill<I: Source>(&mut self, input: &mut I) -> Result<(), Failed>
        ensures ok { OnOk result (Fills self.old (I.left input.old) self.new (I.left input.new)) }
        ensures err { OnErr result (SameAhead self.old (I.left input.old) self.new (I.left input.new)) }
        ensures drained { OnErr result (self.new ≡ []) }
        ensures counts { I.faults input.old ≤ I.faults input.new }
        ensures failed { OnErr result (Rises (I.faults input.old) (I.faults input.new)) }
    {
        if self.start < self.end {
            return Ok(());
        }
        let count = input.read(&mut self.buffer)?;
        self.start = 0;
        self.end = count;
        Ok(())
    }
}
