//! The clock of a board.
ghost use Rattle.std.specs.Prelude.{◌≡◌, ◌≤◌, ◌+◌, ◌-◌, ◌^◌, max, min};

use rws_board::BoardFault;
use std::time::{Clock, Instant};

/// The clock of a board, in milliseconds from when the board was made.
#[derive(Drop)]
pub struct Timer {
    start: Instant,
    /// What the last `Clock` showed, and 0 before the first.
    pub reading: u64,
}

impl Timer {
    /// A clock that begins now.
    pub fn new(start: Instant) -> Timer
        ensures { result.reading ≡ 0 }
    {
        Timer { start, reading: 0 }
    }

    /// How late it is.
    pub fn now<R: Clock>(&self, rt: &R) -> Result<u64, BoardFault> {
        let now = Instant::now(rt).map_err(|_| BoardFault::Failed)?;
        let passed = now.duration_since(self.start).as_millis();
        Ok(u64::try_from(passed).unwrap_or(u64::MAX))
    }

    /// How long it still is from `now` until a `Clock` is due that comes `wait_ms` after the last one.
    pub fn left(&self, now: u64, wait_ms: u64) -> u64
        ensures { result ≡ min (self.now.reading + wait_ms) (2 ^ 64 - 1) - now }
    {
        self.reading.saturating_add(wait_ms).saturating_sub(now)
    }

    /// Takes a reading, which isn't below the last one.
    pub fn read(&mut self, now: u64) -> u64
        ensures exact { result ≡ max self.old.reading now }
        ensures rises { self.old.reading ≤ result }
        ensures kept { self.new.reading ≡ result }
    {
        self.reading = self.reading.max(now);
        self.reading
    }
}
