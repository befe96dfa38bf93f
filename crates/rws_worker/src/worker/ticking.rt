//! What the clock shows is told to each open session, in order of number.
ghost use Rattle.std.specs.Prelude.{◌≡◌, List, MatchOption, Some, true, false};
ghost use Rattle.rws_board.specs.declared.event.Event.TheVariants as events;
ghost use Rattle.rws_config.specs.declared.config.Config.{Config};
ghost use Rattle.rws_record.specs.Run.{Entry, events_of};
ghost use Rattle.rws_worker.specs.declared.asker.Telling.TheVariants.{Told};
ghost use Rattle.rws_worker.specs.Standing.{Advances, Gives, WorkerStands, interactions_of};
ghost use Rattle.rws_worker.specs.Stepping.{IsBare, IsIdle, start_of};
ghost use Rattle.rws_worker.specs.Telling.{IsNext, NoneIsNext, TellsFurther};

use crate::Worker;
use crate::asker::Telling;
use rws_config::Config;
use rws_session::SessionInput;
use std::ops::Bound;

impl Worker {
    /// The clock shows this, which the steps tell on.
    pub(super) fn read_clock(&mut self, now_ms: u64)
        requires idle { IsIdle self.old }
        ensures advances { (config : Config) (run : List Entry) → WorkerStands config self.old run
            → Gives config run (events.Clock now_ms) self.new }
    {
        self.now_ms = now_ms;
        self.telling = Telling::All;
    }

    /// Tells the clock's reading to the next open session, where one hasn't heard it yet.
    pub(super) fn tell_next(&mut self, config: &Config) -> bool
        ensures told { result ≡ true → TellsFurther self.old.telling self.new.telling }
        ensures advances { result ≡ true → (run : List Entry) → WorkerStands config.now self.old run → IsBare self.old
            → Advances config.now (interactions_of run) (events_of run) self.new }
        ensures none { result ≡ false → self.new ≡ record self.old { telling = Told } }
        ensures stands { result ≡ false → (run : List Entry) → WorkerStands config.now self.old run → IsBare self.old
            → WorkerStands config.now self.new run }
    {
        let Some(session) = self.next_told() else {
            self.telling = Telling::Told;
            return false;
        };
        self.telling = Telling::Above { session };
        let now_ms = self.now_ms;
        self.tell(session, SessionInput::Clock { now_ms }, config);
        true
    }

    /// The first of the open sessions that haven't heard it.
    fn next_told(&self) -> Option<u32>
        ensures { MatchOption result (NoneIsNext (start_of self.now.telling) self.now.sessions)
            (λ session. IsNext (start_of self.now.telling) session self.now.sessions) }
    {
        let start = self.telling.start()?;
        self.first_from(start)
    }

    /// The first open session from there on.
    fn first_from(&self, start: Bound<u32>) -> Option<u32>
        ensures { MatchOption result (NoneIsNext (Some start) self.now.sessions)
            (λ session. IsNext (Some start) session self.now.sessions) }
    {
        let (session, _) = self.sessions.range((start, Bound::Unbounded)).next()?;
        Some(*session)
    }
}
