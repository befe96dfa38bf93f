//! What becomes of a session behind its turn.

ghost use Rattle.std.specs.Prelude.{◌≡◌, List, None, Some};
ghost use Rattle.std.specs.BTreeMap.{get};
ghost use Rattle.std.specs.Ordering.{nat_cmp};
ghost use Rattle.rws_session.specs.Kept.{Kept};
ghost use Rattle.rws_worker.specs.declared.ahead.Ahead.TheVariants.{Going};
ghost use Rattle.rws_worker.specs.declared.asker.Asker.TheVariants as askers;
ghost use Rattle.rws_worker.specs.Stepping.{over_in, starved_in};
ghost use Rattle.rws_worker.specs.Telling.{Changes, CountsIn, Finishes, GoesOnSo};

use crate::Worker;
use crate::ahead::Ahead;
use crate::asker::Asker;
use crate::worker::telling::{TurnEnd, ended};
use rws_config::Config;

impl Worker {
    /// A session goes on from where it is.
    pub(super) fn start(&mut self, session: u32, config: &Config) -> TurnEnd
        ensures goes { (before : Kept) → get nat_cmp self.old.sessions session ≡ Some before
            → GoesOnSo config.now session before self.old self.new result }
        ensures rest { self.new ≡ record self.old { sessions = self.new.sessions } }
    {
        match self.sessions.get_mut(&session) {
            Some(started) => {
                let turned = started.start(config);
                ended(started, turned)
            }
            None => TurnEnd::Goes,
        }
    }

    /// A session's turn ended so: one that is over is forgotten.
    pub(super) fn settle(&mut self, session: u32, end: TurnEnd)
        ensures finishes { Finishes end session self.old self.new }
        ensures telling { self.new.telling ≡ self.old.telling }
    {
        match end {
            TurnEnd::Goes => self.leave(session),
            TurnEnd::Asks => self.wait(session),
            TurnEnd::Ends => self.forget(session),
            TurnEnd::Breaks => self.break_off(session),
            TurnEnd::Starves => self.starve(session),
        }
    }

    /// The session goes on; what it gave out is fetched from its place.
    fn leave(&mut self, session: u32)
        ensures counts { CountsIn (get nat_cmp self.old.sessions session) self.old self.new }
        ensures rest { self.new ≡ record self.old { ahead = Going session; tallies = self.new.tallies } }
    {
        self.count_in(session);
        self.ahead = Ahead::Going { session };
    }

    /// The session asks, which is told outside behind all that it gave out.
    fn wait(&mut self, session: u32)
        ensures counts { CountsIn (get nat_cmp self.old.sessions session) self.old self.new }
        ensures rest { self.new ≡ record self.old { ahead = Going session; tallies = self.new.tallies; asker = askers.Asks session } }
    {
        self.leave(session);
        self.asker = Asker::Asks { session };
    }

    /// The session is over.
    fn forget(&mut self, session: u32)
        ensures gone { Changes self.old.sessions self.new.sessions session None }
        ensures rest { self.new ≡ record self.old { sessions = self.new.sessions; ahead = over_in (get nat_cmp self.old.sessions session) } }
    {
        self.ahead = Ahead::over(self.sessions.remove(&session));
    }

    /// Memory was wanting to the session.
    fn starve(&mut self, session: u32)
        ensures gone { Changes self.old.sessions self.new.sessions session None }
        ensures rest { self.new ≡ record self.old { sessions = self.new.sessions; ahead = starved_in (get nat_cmp self.old.sessions session) } }
    {
        self.ahead = Ahead::starved(self.sessions.remove(&session));
    }

    /// Memory was wanting to the session, which isn't over: its client is told, and it is closed.
    fn break_off(&mut self, session: u32)
        ensures gone { Changes self.old.sessions self.new.sessions session None }
        ensures rest { self.new ≡ record self.old {
          sessions = self.new.sessions;
          ahead = starved_in (get nat_cmp self.old.sessions session);
          broken = Some session;
          closing = Some session;
        } }
    {
        self.starve(session);
        self.broken = Some(session);
        self.closing = Some(session);
    }
}
