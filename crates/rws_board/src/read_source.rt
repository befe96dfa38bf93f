//! A source over a reader.
ghost use Rattle.std.specs.Prelude.{◌≡◌};

use crate::{Failed, Source};
use std::io::Read;

/// A source that gives what a reader gives, as standard input. Each error of the reader is a fault.
#[derive(Drop)]
pub struct ReadSource<R: Read> {
    reader: R,
    faults: u64,
}

impl<R: Read> ReadSource<R> {
    ghost use Rattle.rws_board.specs.Streams.{source_of};

    pub fn new(reader: R) -> ReadSource<R>
        ensures { result ≡ source_of reader 0 }
    {
        ReadSource { reader, faults: 0 }
    }
}

impl<R: Read> Source for ReadSource<R> {
    ghost left = { λ s. R.remaining s.reader };

    ghost faults = { λ s. s.faults };

    fn read(&mut self, buffer: &mut [u8]) -> Result<usize, Failed> {
        match self.reader.read(buffer) {
            Ok(count) => Ok(count),
            Err(_) => {
                self.faults = self.faults.saturating_add(1);
                Err(Failed)
            }
        }
    }
}
