//! Which session an event is for, and what becomes of the session.
ghost use Rattle.std.specs.Prelude.{◌≡◌, ◌++◌, ℕ, true, List, None, Some};
ghost use Rattle.rws_board.specs.declared.event.Event.{Event};
ghost use Rattle.rws_config.specs.declared.config.Config.{Config};
ghost use Rattle.rws_record.specs.Item.{Item};
ghost use Rattle.rws_record.specs.Run.{Entry, events_of, owner, record_of, told_by, untold};
ghost use Rattle.rws_session.specs.Kept.{Kept, Stands};
ghost use Rattle.rws_session.specs.Turning.{heard};
ghost use Rattle.rws_worker.specs.InTurn.{IsBetween};
ghost use Rattle.rws_worker.specs.Standing.{Advances, Gives, IsBehind, IsOn, ToTell, WorkerStands, holds, interactions_of, told_through, told_with};
ghost use Rattle.rws_worker.specs.Stepping.{IsBare, IsIdle, from_of};
ghost use Rattle.rws_worker.specs.Telling.{IsToOne, TurnsOut, end_of};

use crate::Worker;
use rws_config::Config;
use rws_session::{Session, SessionInput};
use std::alloc::AllocError;

/// How a session's turn ended.
pub(super) enum TurnEnd {
    /// The session goes on, and rests.
    Goes,
    /// It is over.
    Ends,
    /// It asks where its command is to go.
    Asks,
    /// Memory was wanting, and the session isn't over.
    Breaks,
    /// Memory was wanting to a session that is over already.
    Starves,
}

impl Worker {
    /// An event tells an input to a session, if it goes on.
    pub(super) fn hear(&mut self, session: u32, input: SessionInput, config: &Config)
        requires idle { IsIdle self.old }
        ensures advances { (run : List Entry) → WorkerStands config.now self.old run → (event : Event) → IsToOne event
            → told_by config.now event run ≡ told_with session input (record_of session run)
            → Gives config.now run event self.new }
    {
        self.tell(session, input, config);
    }

    /// An event tells an input to the session that a link belongs to.
    pub(super) fn hear_on(&mut self, link: u64, input: SessionInput, config: &Config)
        requires idle { IsIdle self.old }
        requires on { IsOn link input }
        ensures advances { (run : List Entry) → WorkerStands config.now self.old run → (event : Event) → IsToOne event
            → told_by config.now event run ≡ told_through (owner link run) input run
            → Gives config.now run event self.new }
    {
        match self.owners.get(&link).copied() {
            Some(session) => self.hear(session, input, config),
            None => {}
        }
    }

    /// Tells an input to a session, if it goes on. A session that is over then is forgotten.
    pub(super) fn tell(&mut self, session: u32, input: SessionInput, config: &Config)
        ensures advances { (run : List Entry) → IsBetween config.now self.old run → IsBare self.old → IsBehind (from_of self.old.telling) session
            → (more : List (ℕ × Item)) → ToTell (from_of self.old.telling) self.old.now_ms run more
            → untold config.now run ≡ told_with session input (record_of session run) ++ more
            → Advances config.now (interactions_of run) (events_of run) self.new }
        ensures telling { self.new.telling ≡ self.old.telling }
    {
        self.count_out(session);
        let Some(told) = self.sessions.get_mut(&session) else {
            return;
        };
        let end = turn(told, input, config);
        self.settle(session, end);
    }

    /// Forgets whose a link was, where its session hasn't the link any more.
    pub(super) fn release(&mut self, link: u64)
        ensures stands { (config : Config) (run : List Entry) → WorkerStands config self.old run
            → WorkerStands config self.new run }
        ensures rest { self.new ≡ record self.old { owners = self.new.owners } }
    {
        if !self.is_held(link) {
            self.owners.remove(&link);
        }
    }

    /// A session that goes on has this link.
    fn is_held(&self, link: u64) -> bool
        ensures { (config : Config) (run : List Entry) → WorkerStands config self.now run → (session : ℕ)
            → owner link run ≡ Some session
            → holds link (record_of session run) ≡ true → result ≡ true }
    {
        let Some(session) = self.owners.get(&link) else {
            return false;
        };
        match self.sessions.get(session) {
            Some(session) => session.has_link(link),
            None => false,
        }
    }
}

/// A turn of a session, and how it ended.
fn turn(session: &mut Session, input: SessionInput, config: &Config) -> TurnEnd
    ensures { (past : List Item) → Stands config.now session.old past
        → TurnsOut config.now (heard input past) past session.old session.new result }
{
    let turned = session.turn(input, config);
    ended(session, turned)
}

/// How a turn ended that gave this.
pub(super) fn ended(session: &Session, turned: Result<bool, AllocError>) -> TurnEnd
    ensures { result ≡ end_of turned session.now.state.over }
{
    let over = session.is_over();
    match turned {
        Ok(true) => TurnEnd::Asks,
        Ok(false) => {
            if over {
                return TurnEnd::Ends;
            }
            TurnEnd::Goes
        }
        Err(AllocError) => {
            if over {
                return TurnEnd::Starves;
            }
            TurnEnd::Breaks
        }
    }
}
