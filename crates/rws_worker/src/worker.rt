//! The sessions of a worker by their numbers, and which of them each link belongs to.
//!
//! Between two turns each session that isn't over rests, or asks for the words of the pool; a session that is over is
//! forgotten. An owner may be there for a link that its session has given up since: then the session hears nothing.
ghost use Rattle.std.specs.Prelude.{◌≡◌, ◌∷◌, ◌++◌, ◌≤◌, ◌+◌, ◌^◌, ℕ, List, [], MatchOption, None, true, false, not};
ghost use Rattle.rws_board.specs.declared.event.Event.{Event};
ghost use Rattle.rws_board.specs.declared.interaction.Interaction.{Interaction};
ghost use Rattle.rws_config.specs.Allowed.{IsAllowed};
ghost use Rattle.rws_config.specs.declared.config.Config.{Config};
ghost use Rattle.rws_record.specs.Run.{Entry};
ghost use Rattle.rws_worker.specs.Standing.{GivesOr, Steps, WorkerStands, interactions_of};
ghost use Rattle.rws_worker.specs.Stepping.{Fetches, IsIdle, done_ahead, is_awaiting};
ghost use Rattle.rws_worker.specs.Working.{CanBeDone};

mod answering;
mod beginning;
mod counting;
mod observing;
mod settling;
mod stepping;
mod telling;
mod ticking;

use crate::Step;
use crate::ahead::Ahead;
use crate::asker::{Asker, Telling};
use crate::tally::{NONE, Tally};
use rws_board::Event;
use rws_config::Config;
use rws_pool::{PoolCall, Round};
use rws_session::{Session, SessionInput};
use std::alloc::Global;
use std::collections::BTreeMap;

/// The sessions of one worker.
#[derive(Drop)]
pub struct Worker {
    alloc: Global,
    sessions: BTreeMap<u32, Session>,
    owners: BTreeMap<u64, u32>,
    /// The link that was opened last, or 0.
    last_link: u64,
    /// The greatest number with which a session was to begin, or 0.
    greatest: u32,
    /// What the clock showed last, in milliseconds, or 0.
    now_ms: u64,
    /// What is open to each server.
    tallies: [Tally; 7],
    /// Where what came of the last turn is fetched from.
    ahead: Ahead,
    /// A session to which memory was wanting, until that is told,
    broken: Option<u32>,
    /// and until it is closed.
    closing: Option<u32>,
    /// A round of the monitor that is still to be taken in.
    observed: Option<Round>,
    /// The session that asks for the words of the pool.
    asker: Asker,
    /// To which sessions the clock's reading is still to be told.
    telling: Telling,
    /// A session was to begin, and no link can be opened any more.
    spent: bool,
}

impl Worker {
    /// A worker without sessions, which takes no memory.
    pub fn new(alloc: Global) -> Worker
        ensures stands { (config : Config) → WorkerStands config result [] }
        ensures idle { IsIdle result }
    {
        Worker {
            alloc,
            sessions: BTreeMap::new(alloc),
            owners: BTreeMap::new(alloc),
            last_link: 0,
            greatest: 0,
            now_ms: 0,
            tallies: [NONE; 7],
            ahead: Ahead::Nothing,
            broken: None,
            closing: None,
            observed: None,
            asker: Asker::Nobody,
            telling: Telling::Told,
            spent: false,
        }
    }

    /// A session was to begin, and no link can be opened any more, for there is no further number. Each step says so.
    pub fn is_spent(&self) -> bool
        ensures { result ≡ self.now.spent }
    {
        self.spent
    }

    /// Gives the worker an event, once a step was idle. Where memory is wanting for it the steps say so; it costs the session
    /// that the event is for.
    pub fn give(&mut self, event: Event, config: &Config)
        requires idle { IsIdle self.old }
        requires allowed { IsAllowed config.now }
        ensures advances { (run : List Entry) → WorkerStands config.now self.old run → GivesOr config.now run event self.old self.new }
    {
        match event {
            Event::Accept { session, scramble } => self.accept(session, scramble, config),
            Event::Begin { session, server } => self.begin(session, server, config),
            Event::ClientBytes { session, bytes } => self.hear(
                session,
                SessionInput::Client(bytes),
                config,
            ),
            Event::ClientGone { session } => self.hear(session, SessionInput::ClientGone, config),
            Event::LinkReady { link } => self.hear_on(link, SessionInput::Ready { link }, config),
            Event::LinkBytes { link, bytes } => self.hear_on(
                link,
                SessionInput::Link { link, bytes },
                config,
            ),
            Event::LinkGone { link } => self.hear_on(link, SessionInput::LinkGone { link }, config),
            Event::Observed { round } => self.observe(round, config),
            Event::Clock { now_ms } => self.read_clock(now_ms),
            Event::End => {}
        }
    }

    /// The next thing that came of the last event. Where a reading of the clock is told to the open sessions, each of them hears
    /// it when all is given out that came before. It isn't called between a Route and its answer.
    pub fn step(&mut self, config: &Config) -> Step
        ensures steps { (run : List Entry) → WorkerStands config.now self.old run → is_awaiting self.old.asker ≡ false
            → Steps config.now run result self.old self.new }

        // The words can take a step of the pool that comes: a commit is of a server that they know, and of their domain.
        ensures can { (run : List Entry) (done : List Interaction) → WorkerStands config.now self.old run → is_awaiting self.old.asker ≡ false
            → IsAllowed config.now → interactions_of run ≡ done ++ done_ahead self.old → CanBeDone config.now.gtid_domain result }
    {
        if self.spent {
            return Step::Spent;
        }
        if let Some(step) = self.fetch() {
            return step;
        }
        if !self.tell_next(config) {
            return Step::Idle;
        }
        self.step(config)
    }

    /// The next thing that came of the last turn, or of a round of the monitor.
    fn fetch(&mut self) -> Option<Step>
        ensures fetches { (config : Config) (run : List Entry) → WorkerStands config self.old run → is_awaiting self.old.asker ≡ false
            → Fetches result self.old self.new }
        ensures stands { (config : Config) (run : List Entry) → WorkerStands config self.old run
            → WorkerStands config self.new run }
        ensures telling { self.new.telling ≡ self.old.telling }
    {
        match self.next_round() {
            Some(round) => Some(Step::Call(PoolCall::Observe { round })),
            None => self.next_of_sessions(),
        }
    }

    /// The same where no round is to be taken in.
    fn next_of_sessions(&mut self) -> Option<Step>
        requires unobserved { self.old.observed ≡ None }
        ensures fetches { (config : Config) (run : List Entry) → WorkerStands config self.old run → is_awaiting self.old.asker ≡ false
            → Fetches result self.old self.new }
        ensures stands { (config : Config) (run : List Entry) → WorkerStands config self.old run
            → WorkerStands config self.new run }
        ensures telling { self.new.telling ≡ self.old.telling }
    {
        if let Some(output) = self.next_out() {
            return Some(self.step_for(output));
        }
        if let Some(step) = self.next_route() {
            return Some(step);
        }
        if let Some(step) = self.next_ending() {
            return Some(step);
        }
        self.clear();
        None
    }
}
