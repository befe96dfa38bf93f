//! How a session begins, or its client is turned away.
ghost use Rattle.std.specs.Prelude.{◌≡◌, ◌<◌, ◌≤◌, ◌+◌, ◌^◌, ℕ, List, IfOk, OnErr, OnOk, Some};
ghost use Rattle.std.specs.BTreeMap.{get};
ghost use Rattle.std.specs.Ordering.{nat_cmp};
ghost use Rattle.rws_board.specs.declared.event.Event.{Event};
ghost use Rattle.rws_board.specs.declared.event.Event.TheVariants as events;
ghost use Rattle.rws_config.specs.Allowed.{IsAllowed};
ghost use Rattle.rws_config.specs.declared.config.Config.{Config};
ghost use Rattle.rws_record.specs.Item.{Item};
ghost use Rattle.rws_record.specs.Item.Item.{Began, TurnsAway};
ghost use Rattle.rws_record.specs.Run.{Entry, greatest, has_room, last_link};
ghost use Rattle.rws_session.specs.Kept.{Starts};
ghost use Rattle.rws_worker.specs.InTurn.{IsBetween};
ghost use Rattle.rws_worker.specs.Standing.{Gives, GivesOr, WorkerStands};
ghost use Rattle.rws_worker.specs.Stepping.{IsIdle};
ghost use Rattle.rws_worker.specs.Telling.{Begins, BeginsWithout, Places, Seats};

use crate::Worker;
use crate::ahead::Ahead;
use rws_config::Config;
use rws_session::Session;
use std::alloc::AllocError;

/// From this number on none is left for a further link.
pub(super) const LAST_LINK: u64 = u64::MAX - 1;

impl Worker {
    /// A client connects: a session begins that is to greet it, where its number is above all before. Where there are as many as
    /// may be, the client is turned away.
    pub(super) fn accept(&mut self, session: u32, scramble: [u8; 20], config: &Config)
        requires idle { IsIdle self.old }
        ensures advances { (run : List Entry) → WorkerStands config.now self.old run
            → Gives config.now run (events.Accept session scramble) self.new }
    {
        if session <= self.greatest {
            return;
        }
        self.greatest = session;
        if self.has_room(config) {
            let made = Session::accept(self.alloc, session, scramble, self.now_ms, config);
            self.begin_without(session, made, config);
        } else {
            self.turn_away(session, true, config);
        }
    }

    /// A session begins in the command phase, where its number is above all before, the settings have its server, and there
    /// aren't as many as may be.
    pub(super) fn begin(&mut self, session: u32, server: u8, config: &Config)
        requires idle { IsIdle self.old }
        requires allowed { IsAllowed config.now }
        ensures advances { (run : List Entry) → WorkerStands config.now self.old run
            → GivesOr config.now run (events.Begin session server) self.old self.new }
    {
        if self.last_link >= LAST_LINK {
            self.spent = true;
            return;
        }
        self.begin_numbered(session, server, config);
    }

    /// The same, where a number is left for the session's link.
    fn begin_numbered(&mut self, session: u32, server: u8, config: &Config)
        requires idle { IsIdle self.old }
        requires allowed { IsAllowed config.now }
        requires numbers { self.old.last_link + 2 < 2 ^ 64 }
        ensures advances { (run : List Entry) → WorkerStands config.now self.old run
            → Gives config.now run (events.Begin session server) self.new }
    {
        if session <= self.greatest {
            return;
        }
        self.greatest = session;
        if usize::from(server) >= config.servers.len() {
            return;
        }
        if self.has_room(config) {
            self.begin_on(session, server, config);
        } else {
            self.turn_away(session, false, config);
        }
    }

    /// A further session may be open.
    fn has_room(&self, config: &Config) -> bool
        ensures { (run : List Entry) → IsBetween config.now (record self.now { greatest = greatest run }) run
            → result ≡ has_room config.now run }
    {
        (self.sessions.len() as u64) < u64::from(config.sessions)
    }

    /// A session that is closed at once; a client that connected is told so.
    fn turn_away(&mut self, session: u32, told: bool, config: &Config)
        ensures advances { (run : List Entry) (event : Event) → Begins config.now run event session (TurnsAway told) self.old
            → Gives config.now run event self.new }
    {
        let made = Session::turn_away(self.alloc, session, told, config);
        self.begin_without(session, made, config);
    }

    /// A session that was made without a link goes on from its beginning.
    fn begin_without(&mut self, session: u32, made: Result<Session, AllocError>, config: &Config)
        ensures advances { (run : List Entry) (event : Event) (item : Item) → Begins config.now run event session item self.old → BeginsWithout item
            → IfOk made (λ kept. Starts config.now item session kept) → Gives config.now run event self.new }
    {
        match self.place(session, made) {
            Ok(()) => {
                let end = self.start(session, config);
                self.settle(session, end);
            }
            Err(AllocError) => self.fail(session, Ahead::Nothing),
        }
    }

    /// A session that was made has a place.
    fn place(&mut self, session: u32, made: Result<Session, AllocError>) -> Result<(), AllocError>
        ensures ok { (config : Config) (item : Item) → IfOk made (λ kept. Starts config item session kept)
            → OnOk result (Places config session item self.old self.new) }
        ensures err { OnErr result ((n : ℕ) → get nat_cmp self.new.sessions n ≡ get nat_cmp self.old.sessions n) }
        ensures rest { self.new ≡ record self.old { sessions = self.new.sessions } }
    {
        match made {
            Ok(made) => {
                self.sessions.insert(session, made)?;
                Ok(())
            }
            Err(AllocError) => Err(AllocError),
        }
    }

    /// A session begins on the next link.
    fn begin_on(&mut self, session: u32, server: u8, config: &Config)
        requires allowed { IsAllowed config.now }
        requires numbers { self.old.last_link + 2 < 2 ^ 64 }
        ensures advances { (run : List Entry) (event : Event)
            → Begins config.now run event session (Began (last_link run + 1) server self.old.now_ms) self.old
            → Gives config.now run event self.new }
    {
        self.last_link += 1;
        let link = self.last_link;
        match self.seat(session, server, link, config) {
            Ok(()) => {
                let end = self.start(session, config);
                self.settle(session, end);
            }
            Err(AllocError) => {
                self.owners.remove(&link);
                self.fail(session, Ahead::Unmade { link });
            }
        }
    }

    /// There was no memory for a session.
    fn fail(&mut self, session: u32, ahead: Ahead)
        ensures { self.new ≡ record self.old { ahead = ahead; broken = Some session; closing = Some session } }
    {
        self.ahead = ahead;
        self.broken = Some(session);
        self.closing = Some(session);
    }

    /// Makes a session, and a place for it and for its link.
    fn seat(
        &mut self,
        session: u32,
        server: u8,
        link: u64,
        config: &Config,
    ) -> Result<(), AllocError>
        requires allowed { IsAllowed config.now }
        ensures ok { OnOk result (Seats config.now session (Began link server self.old.now_ms) link self.old self.new) }
        ensures err { OnErr result ((n : ℕ) → get nat_cmp self.new.sessions n ≡ get nat_cmp self.old.sessions n) }
        ensures owners { (other : ℕ) → (link ≡ other → ⊥) → get nat_cmp self.new.owners other ≡ get nat_cmp self.old.owners other }
        ensures rest { self.new ≡ record self.old { sessions = self.new.sessions; owners = self.new.owners } }
    {
        let begun = Session::begin(self.alloc, session, server, link, self.now_ms, config)?;
        self.owners.insert(link, session)?;
        self.sessions.insert(session, begun)?;
        Ok(())
    }
}
