//! A sink in memory.
ghost use Rattle.std.specs.Prelude.{◌≡◌, ◌+◌, ◌≤◌, ◌<◌, ◌↔◌, ◌⊎◌, ℕ, List, Some, [], Contains, IfOk, IsErr, OnOk, OnErr, length};
ghost use Rattle.rws_board.specs.Faults.{Rises, one_more};
ghost use Rattle.rws_board.specs.Put.{PutAppends};

use crate::planned_faults::PlannedFaults;
use crate::{CallList, Failed, Sink};
use std::alloc::{AllocError, Global};
use std::marker::Model;

/// A sink with room for so many bytes, of which some calls fail.
#[derive(Debug, Drop)]
pub struct MemSink {
    taken: Vec<u8>,
    room: usize,
    plan: PlannedFaults,
}

impl Model for MemSink {
    ghost use Rattle.std.specs.Prelude.{◌≤◌, vec_len, vec_capacity};
    ghost use Rattle.rws_board.specs.InMemory.{Store};

    ghost Value = { Store };

    ghost view = { λ s. record { taken = s.taken.items; room = s.room; fails = s.plan.fails; calls = s.plan.calls; faults = s.plan.faults } };

    ghost invariant = { λ s. (vec_len s.taken ≤ s.room) × (s.room ≤ vec_capacity s.taken) };
}

impl MemSink {
    /// Takes memory for `room` bytes. `fails` are the numbers, from 0, of the calls that are to fail.
    pub fn new(alloc: Global, room: u64, fails: CallList) -> Result<MemSink, AllocError>
        ensures { IfOk result (λ sink. sink ≡ record { taken = []; room = room; fails = fails; calls = 0; faults = 0 }) }
    {
        let room = room as usize;
        Ok(MemSink {
            taken: Vec::with_capacity(alloc, room)?,
            room,
            plan: PlannedFaults::new(fails),
        })
    }

    /// The bytes taken.
    pub fn as_slice(&self) -> &[u8]
        ensures { result.now ≡ self.now.taken }
    {
        self.taken.as_slice()
    }
}

impl Sink for MemSink {
    ghost taken = { λ s. Some s.taken };

    ghost faults = { λ s. s.faults };

    /// A piece for which there is no room is refused whole.
    fn put(&mut self, piece: &[u8]) -> Result<(), Failed>
        ensures bytes { PutAppends (Some self.old.taken) (Some self.new.taken) result piece.now }
        ensures counts { self.old.faults ≤ self.new.faults }
        ensures failed { OnErr result (Rises self.old.faults self.new.faults) }
        ensures refused { IsErr result ↔ (Contains self.old.fails self.old.calls
            ⊎ self.old.room < length self.old.taken + length piece.now) }
        ensures untaken { OnErr result (self.new.taken ≡ self.old.taken) }
        ensures room { self.new.room ≡ self.old.room }
        ensures calls { self.new.calls ≡ one_more self.old.calls }
        ensures fails { self.new.fails ≡ self.old.fails }
        ensures ok { OnOk result (self.new.faults ≡ self.old.faults) }
        ensures err { OnErr result (self.new.faults ≡ one_more self.old.faults) }
    {
        self.plan.call()?;
        if piece.len() > self.room - self.taken.len() {
            return Err(self.plan.fail());
        }
        match self.taken.extend_from_slice(piece) {
            Ok(()) => Ok(()),
            Err(_) => unreachable!(),
        }
    }
}
