//! The faults of an object in memory: those that were planned, and those of its own.
ghost use Rattle.std.specs.Prelude.{◌≡◌, ◌≤◌, ◌↔◌, Contains, IsErr, OnOk, OnErr};
ghost use Rattle.rws_board.specs.Faults.{one_more};

use crate::{CallList, Failed};

/// Which calls are to fail, how many were made and how many failed. Both counts stay at the greatest `u64`.
#[derive(Debug, Drop)]
pub(crate) struct PlannedFaults {
    pub fails: CallList,
    pub calls: u64,
    pub faults: u64,
}

impl PlannedFaults {
    pub fn new(fails: CallList) -> PlannedFaults
        ensures { result ≡ record { fails = fails; calls = 0; faults = 0 } }
    {
        PlannedFaults {
            fails,
            calls: 0,
            faults: 0,
        }
    }

    /// Counts a call, which fails if that was planned.
    pub fn call(&mut self) -> Result<(), Failed>
        ensures planned { IsErr result ↔ Contains self.old.fails self.old.calls }
        ensures fails { self.new.fails ≡ self.old.fails }
        ensures calls { self.new.calls ≡ one_more self.old.calls }
        ensures ok { OnOk result (self.new.faults ≡ self.old.faults) }
        ensures err { OnErr result (self.new.faults ≡ one_more self.old.faults) }
        ensures counts { self.old.faults ≤ self.new.faults }
    {
        let call = self.calls;
        self.calls = call.saturating_add(1);
        if self.fails.contains(call) {
            return Err(self.fail());
        }
        Ok(())
    }

    /// Counts a fault.
    pub fn fail(&mut self) -> Failed
        ensures counted { self.new ≡ record self.old { faults = one_more self.old.faults } }
        ensures counts { self.old.faults ≤ self.new.faults }
    {
        self.faults = self.faults.saturating_add(1);
        Failed
    }
}
