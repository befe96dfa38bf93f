//! How far a replay has come, and how often its links were lost. No call takes memory.
ghost use Rattle.std.specs.Prelude.{◌≡◌, ◌<◌, ◌≤◌, ◌+◌, ◌↔◌, ◌^◌, length, Some, slice_get, IfErr, IsErr, IsOk, IsSomeAnd, OnErr, OnOk};
ghost use Rattle.rws_replay.specs.Replays.{begun_again, losses_after, new_replay, next_item};

use crate::{Attempts, Mismatch, ReplayLog};
use rws_checksum::Digest;
use std::marker::Model;

/// A replay of the first so many commands of a log, one after the other. It begins again at the first when its link is lost.
#[derive(Clone, Copy, Debug, PartialEq, Eq)]
pub struct Replayer {
    items: usize,
    compared: usize,
    losses: u32,
}

impl Model for Replayer {
    ghost use Rattle.rws_replay.specs.Replays.{Replay};

    ghost Value = { Replay };

    ghost view = { λ replayer. record { items = replayer.items; compared = replayer.compared; losses = replayer.losses } };

    ghost inverse = { λ replay. record { items = replay.items; compared = replay.compared; losses = replay.losses } };
}

impl Replayer {
    /// A replay of the first `items` commands, before the first of them.
    pub fn new(items: usize) -> Replayer
        ensures { result ≡ new_replay items }
    {
        Replayer {
            items,
            compared: 0,
            losses: 0,
        }
    }

    /// The place of the command whose reply is to be compared next; None where all were compared.
    pub fn next(&self) -> Option<usize>
        ensures { result ≡ next_item self.now }
    {
        (self.compared < self.items).then_some(self.compared)
    }

    /// Compares the sum of the next command's reply with the one in the log. Ok goes on to the command behind it.
    pub fn compare(&mut self, log: &ReplayLog, sum: &Digest) -> Result<(), Mismatch>
        requires { IsSomeAnd (next_item self.old) (λ at. at < length log.now.sums) }
        ensures same { IsOk result ↔ (slice_get log.now.sums self.old.compared ≡ Some sum.now) }
        ensures ok { OnOk result (self.new ≡ record self.old { compared = self.old.compared + 1 }) }
        ensures mismatch { IfErr result (λ found. (found.item ≡ self.old.compared)
            × (slice_get log.now.sums self.old.compared ≡ Some found.old) × (found.new ≡ sum.now)) }
        ensures err { OnErr result (self.new ≡ self.old) }
    {
        prove!(self.compared < self.items);
        let old = log.sum(self.compared);
        if old != *sum {
            return Err(Mismatch {
                item: self.compared,
                old,
                new: *sum,
            });
        }
        self.compared += 1;
        Ok(())
    }

    /// The replay's link was lost: it begins again at the first command. `Attempts` comes where that happened `limit` times.
    /// The count stops at the greatest u32.
    pub fn lost(&mut self, limit: u32) -> Result<(), Attempts>
        ensures again { self.new ≡ begun_again self.old }
        ensures attempts { IsErr result ↔ (limit ≤ losses_after self.old) }
        ensures n { IfErr result (λ attempts. attempts.n ≡ losses_after self.old) }
    {
        self.compared = 0;
        self.losses = self.losses.saturating_add(1);
        if self.losses >= limit {
            return Err(Attempts { n: self.losses });
        }
        Ok(())
    }
}
