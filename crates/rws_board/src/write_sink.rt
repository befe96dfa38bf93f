//! A sink over a writer.
ghost use Rattle.std.specs.Prelude.{◌≡◌};
ghost use Rattle.rws_board.specs.Put.{PutAppends};

use crate::{Failed, Sink};
use std::io::Write;

/// A sink that hands on to a writer, as standard output, and flushes it. Each error of the writer is a
/// fault, and so is a write that takes nothing.
#[derive(Drop)]
pub struct WriteSink<W: Write> {
    writer: W,
    faults: u64,
}

impl<W: Write> WriteSink<W> {
    ghost use Rattle.rws_board.specs.Streams.{sink_of};

    pub fn new(writer: W) -> WriteSink<W>
        ensures { result ≡ sink_of writer 0 }
    {
        WriteSink { writer, faults: 0 }
    }
}

impl<W: Write> Sink for WriteSink<W> {
    ghost taken = { λ s. W.contents s.writer };

    ghost faults = { λ s. s.faults };

    fn put(&mut self, piece: &[u8]) -> Result<(), Failed> {
        match write_through(&mut self.writer, piece) {
            Ok(()) => Ok(()),
            Err(Failed) => {
                self.faults = self.faults.saturating_add(1);
                Err(Failed)
            }
        }
    }
}

// Writes the whole piece, and flushes.
fn write_through<W: Write>(writer: &mut W, piece: &[u8]) -> Result<(), Failed>
    ensures { PutAppends (W.contents writer.old) (W.contents writer.new) result piece.now }
{
    let mut done = 0;
    while done < piece.len() {
        match writer.write(&piece[done..]) {
            Ok(0) | Err(_) => return Err(Failed),
            Ok(count) => done += count,
        }
    }
    writer.flush().map_err(|_| Failed)
}
