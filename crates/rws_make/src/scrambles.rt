//! Scrambles, which no one can foresee.
ghost use Rattle.std.specs.Prelude.{◌≡◌, ◌≤◌, IfOk, OnOk};
ghost use Rattle.rws_make.specs.Zeros.{HasNoZero};

use std::io::Read;
use std::rt::Files;
use std::{fs, io};

/// How many bytes are drawn for one scramble: twice as many as it has, since a zero isn't taken.
const DRAWN: usize = 40;

/// How many bytes are drawn at a time.
const DRAWN_AT_ONCE: usize = 32 * DRAWN;

/// Random bytes that were drawn and aren't used up.
#[derive(Drop)]
pub struct Scrambles {
    drawn: [u8; DRAWN_AT_ONCE],
    used: usize,
}

impl Scrambles {
    /// Nothing is drawn yet.
    pub fn new() -> Scrambles
        ensures { result.used ≡ 1280 }
    {
        Scrambles {
            drawn: [0; DRAWN_AT_ONCE],
            used: DRAWN_AT_ONCE,
        }
    }

    /// A scramble of bytes that were in none before. It fails where the system gives no random bytes.
    pub fn draw<R: Files>(&mut self, rt: &R) -> io::Result<[u8; 20]>
        ensures zeros { IfOk result HasNoZero }

        // The bytes of this scramble are among those that are used.
        ensures used { OnOk result (40 ≤ self.new.used) }
    {
        if self.used > DRAWN_AT_ONCE - DRAWN {
            fs::open(rt, "/dev/urandom")?.read_exact(&mut self.drawn)?;
            self.used = 0;
        }
        let scramble = without_zeros(&self.drawn[self.used..self.used + DRAWN]);
        self.used += DRAWN;
        if scramble.contains(&0) {
            return Err(io::Error::from(io::ErrorKind::InvalidData));
        }
        Ok(scramble)
    }
}

/// The first twenty bytes that aren't zero; where there are fewer, zeros stand in for those that are wanting.
fn without_zeros(drawn: &[u8]) -> [u8; 20] {
    let mut scramble = [0; 20];
    let bytes = drawn.iter().filter(|byte| **byte != 0);
    for (place, byte) in scramble.iter_mut().zip(bytes) {
        *place = *byte;
    }
    scramble
}
