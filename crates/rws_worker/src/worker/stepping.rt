//! What came of the last event, in order: what sessions gave out, and then, where memory was wanting to one, how it ends.
ghost use Rattle.std.specs.Prelude.{◌≡◌, ◌∷◌, ℕ, List, [], Some, None, MatchOption};
ghost use Rattle.std.specs.BTreeMap.{get};
ghost use Rattle.std.specs.Ordering.{nat_cmp};
ghost use Rattle.rws_config.specs.declared.config.Config.{Config};
ghost use Rattle.rws_record.specs.Run.{Entry};
ghost use Rattle.rws_worker.specs.declared.ahead.Ahead.TheVariants.{Nothing};
ghost use Rattle.rws_worker.specs.Standing.{WorkerStands};
ghost use Rattle.rws_worker.specs.Stepping.{Routes, broken_by, farewell_ahead, going_in, endings, links_ahead, outs_ahead, outs_of_seat, step_for};

use crate::ahead::Ahead;
use crate::asker::Asker;
use crate::worker::beginning::LAST_LINK;
use crate::{Step, Worker};
use rws_board::Action;
use rws_pool::PoolCall;
use rws_record::Output;
use rws_wire::{CloseReason, DropCause};

impl Worker {
    /// The oldest output of the session that the last event was for.
    pub(super) fn next_out(&mut self) -> Option<Output>
        ensures out { MatchOption result ((outs_ahead self.old ≡ []) × (outs_ahead self.new ≡ []))
            (λ output. outs_ahead self.old ≡ output ∷ outs_ahead self.new) }
        ensures endings { endings self.new ≡ endings self.old }
        ensures rest { self.new ≡ record self.old { sessions = self.new.sessions; ahead = self.new.ahead } }
        ensures stands { (config : Config) (run : List Entry) → WorkerStands config self.old run → WorkerStands config self.new run }
    {
        match self.ahead.going() {
            Some(session) => self.next_of(session),
            None => self.ahead.next_out(),
        }
    }

    /// The oldest output of a session that goes on.
    fn next_of(&mut self, session: u32) -> Option<Output>
        ensures out { MatchOption result
            ((outs_of_seat (get nat_cmp self.old.sessions session) ≡ []) × (outs_of_seat (get nat_cmp self.new.sessions session) ≡ []))
            (λ output. outs_of_seat (get nat_cmp self.old.sessions session) ≡ output ∷ outs_of_seat (get nat_cmp self.new.sessions session)) }
        ensures rest { self.new ≡ record self.old { sessions = self.new.sessions } }
        ensures stands { (config : Config) (run : List Entry) → going_in self.old.ahead ≡ Some session → WorkerStands config self.old run
            → WorkerStands config self.new run }
    {
        match self.sessions.get_mut(&session) {
            Some(told) => told.next_out(),
            None => None,
        }
    }

    /// That a session asks, unless no number is left for a link.
    pub(super) fn next_route(&mut self) -> Option<Step>
        requires unobserved { self.old.observed ≡ None }
        ensures route { Routes result self.old self.new }
        ensures stands { (config : Config) (run : List Entry) → WorkerStands config self.old run → outs_ahead self.old ≡ []
            → WorkerStands config self.new run }
        ensures telling { self.new.telling ≡ self.old.telling }
    {
        match self.asker {
            Asker::Nobody => None,
            Asker::Awaits { session: _ } => None,
            Asker::Asks { session } => {
                if self.last_link >= LAST_LINK {
                    return Some(Step::Spent);
                }
                self.asker = Asker::Awaits { session };
                self.clear();
                Some(Step::Call(PoolCall::Route { session }))
            }
        }
    }

    /// Nothing is left of what a session gave out.
    pub(super) fn clear(&mut self)
        ensures { self.new ≡ record self.old { ahead = Nothing } }
    {
        self.ahead = Ahead::Nothing;
    }

    /// What comes next of the end of a session to which memory was wanting.
    pub(super) fn next_ending(&mut self) -> Option<Step>
        ensures step { MatchOption result ((endings self.old ≡ []) × (self.new.broken ≡ None) × (self.new.closing ≡ None))
            (λ step. endings self.old ≡ step ∷ endings self.new) }
        ensures outs { outs_ahead self.new ≡ outs_ahead self.old }
        ensures observed { self.new.observed ≡ self.old.observed }
        ensures asker { self.new.asker ≡ self.old.asker }
        ensures telling { self.new.telling ≡ self.old.telling }
        ensures stands { (config : Config) (run : List Entry) → WorkerStands config self.old run → WorkerStands config self.new run }
    {
        if let Some(step) = self.next_broken() {
            return Some(step);
        }
        if let Some(session) = self.closing.take() {
            return Some(Step::Act(Action::Close {
                session,
                reason: CloseReason::Memory,
            }));
        }
        let link = self.next_drop()?;
        Some(Step::Act(Action::Drop {
            link,
            cause: DropCause::End,
        }))
    }

    /// What the client of such a session is told, if it was made.
    fn next_broken(&mut self) -> Option<Step>
        ensures step { MatchOption result (broken_by self.old.broken (farewell_ahead self.old.ahead) ≡ [])
            (λ step. broken_by self.old.broken (farewell_ahead self.old.ahead) ≡ step ∷ []) }
        ensures told { self.new.broken ≡ None }
        ensures links { links_ahead self.new.ahead ≡ links_ahead self.old.ahead }
        ensures outs { outs_ahead self.new ≡ outs_ahead self.old }
        ensures rest { self.new ≡ record self.old { ahead = self.new.ahead; broken = None } }
        ensures stands { (config : Config) (run : List Entry) → WorkerStands config self.old run → WorkerStands config self.new run }
    {
        let Some(session) = self.broken.take() else {
            return None;
        };
        let farewell = self.ahead.farewell(self.alloc);
        if farewell.is_empty() {
            return None;
        }
        Some(Step::Broken { session, farewell })
    }

    /// The first of the links that such a session has left, which is given up.
    fn next_drop(&mut self) -> Option<u64>
        ensures taken { MatchOption result ((links_ahead self.old.ahead ≡ []) × (links_ahead self.new.ahead ≡ []))
            (λ link. links_ahead self.old.ahead ≡ link ∷ links_ahead self.new.ahead) }
        ensures outs { outs_ahead self.new ≡ outs_ahead self.old }
        ensures rest { self.new ≡ record self.old { owners = self.new.owners; ahead = self.new.ahead } }
        ensures stands { (config : Config) (run : List Entry) → WorkerStands config self.old run → WorkerStands config self.new run }
    {
        let link = self.ahead.next_link()?;
        self.release(link);
        Some(link)
    }

    /// What is to be done for something that a session gave out. Where that gives a link up, whose it was is forgotten.
    pub(super) fn step_for(&mut self, output: Output) -> Step
        ensures step { result ≡ step_for output }
        ensures stands { (config : Config) (run : List Entry) → WorkerStands config self.old run
            → WorkerStands config self.new run }
        ensures rest { self.new ≡ record self.old { owners = self.new.owners } }
    {
        match output {
            Output::Act(action) => {
                self.release_dropped(&action);
                Step::Act(action)
            }
            Output::Record { server, gtid } => Step::Call(PoolCall::Record { server, gtid }),
        }
    }

    /// Forgets whose a link was that an action gives up.
    fn release_dropped(&mut self, action: &Action)
        ensures stands { (config : Config) (run : List Entry) → WorkerStands config self.old run
            → WorkerStands config self.new run }
        ensures rest { self.new ≡ record self.old { owners = self.new.owners } }
    {
        if let Action::Drop { link, .. } = action {
            self.release(*link);
        }
    }
}
