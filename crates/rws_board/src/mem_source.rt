//! A source in memory.
ghost use Rattle.std.specs.Prelude.{◌≡◌, ◌≤◌, ◌↔◌, ℕ, List, Some, [], Contains, IfOk, IsErr, OnOk, OnErr, length, drop, min};
ghost use Rattle.std.specs.Io.KnownBytes.{ReadConsumes};
ghost use Rattle.rws_board.specs.Faults.{Rises, one_more};

use crate::planned_faults::PlannedFaults;
use crate::{CallList, Failed, Source};
use rws_wire::Text;
use std::marker::Model;

/// A source of these bytes, of which some calls fail.
#[derive(Debug, Drop)]
pub struct MemSource {
    bytes: Text,
    start: usize,
    plan: PlannedFaults,
}

impl Model for MemSource {
    ghost use Rattle.std.specs.Prelude.{◌≤◌, length, drop};
    ghost use Rattle.rws_board.specs.InMemory.{Supply};

    ghost Value = { Supply };

    ghost view = { λ s. record { left = drop s.start s.bytes; fails = s.plan.fails; calls = s.plan.calls; faults = s.plan.faults } };

    ghost invariant = { λ s. s.start ≤ length s.bytes };
}

impl MemSource {
    /// `fails` are the numbers, from 0, of the calls that are to fail.
    pub fn new(bytes: Text, fails: CallList) -> MemSource
        ensures { result ≡ record { left = bytes; fails = fails; calls = 0; faults = 0 } }
    {
        MemSource {
            bytes,
            start: 0,
            plan: PlannedFaults::new(fails),
        }
    }
}

impl Source for MemSource {
    ghost left = { λ s. Some s.left };

    ghost faults = { λ s. s.faults };

    /// Gives as many bytes as there is room for.
    fn read(&mut self, buffer: &mut [u8]) -> Result<usize, Failed>
        ensures within { IfOk result (λ count. count ≤ length buffer.new) }
        ensures bytes { ReadConsumes (Some self.old.left) (Some self.new.left) result buffer.new }
        ensures counts { self.old.faults ≤ self.new.faults }
        ensures failed { OnErr result (Rises self.old.faults self.new.faults) }
        ensures planned { IsErr result ↔ Contains self.old.fails self.old.calls }
        ensures count { IfOk result (λ count. count ≡ min (length buffer.old) (length self.old.left)) }
        ensures calls { self.new.calls ≡ one_more self.old.calls }
        ensures fails { self.new.fails ≡ self.old.fails }
        ensures ok { OnOk result (self.new.faults ≡ self.old.faults) }
        ensures err { OnErr result (self.new.faults ≡ one_more self.old.faults) }
    {
        self.plan.call()?;
        let left = &self.bytes.as_slice()[self.start..];
        let count = buffer.len().min(left.len());
        buffer[..count].copy_from_slice(&left[..count]);
        self.start += count;
        Ok(count)
    }
}
