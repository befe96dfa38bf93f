//! What is open to each server, counted over the sessions that are open.
ghost use Rattle.std.specs.Prelude.{◌≡◌, List};
ghost use Rattle.std.specs.BTreeMap.{get};
ghost use Rattle.std.specs.Ordering.{nat_cmp};
ghost use Rattle.rws_config.specs.declared.config.Config.{Config};
ghost use Rattle.rws_record.specs.Run.{Entry, loads_of};
ghost use Rattle.rws_worker.specs.Standing.{WorkerStands};
ghost use Rattle.rws_worker.specs.Telling.{CountsIn, CountsOut};

use crate::Worker;
use crate::tally::{loads, with, without};
use rws_select::Load;

impl Worker {
    /// A session that has a turn isn't counted.
    pub(super) fn count_out(&mut self, session: u32)
        ensures counts { CountsOut (get nat_cmp self.old.sessions session) self.old self.new }
        ensures rest { self.new ≡ record self.old { tallies = self.new.tallies } }
    {
        match self.sessions.get(&session) {
            Some(kept) => self.tallies = without(&self.tallies, kept),
            None => {}
        }
    }

    /// It is again, behind its turn.
    pub(super) fn count_in(&mut self, session: u32)
        ensures counts { CountsIn (get nat_cmp self.old.sessions session) self.old self.new }
        ensures rest { self.new ≡ record self.old { tallies = self.new.tallies } }
    {
        match self.sessions.get(&session) {
            Some(kept) => self.tallies = with(&self.tallies, kept),
            None => {}
        }
    }

    /// The loads by which a server is chosen.
    pub(super) fn loads(&self) -> [Load; 7]
        ensures { (config : Config) (run : List Entry) → WorkerStands config self.now run → result ≡ loads_of run }
    {
        loads(&self.tallies)
    }
}
