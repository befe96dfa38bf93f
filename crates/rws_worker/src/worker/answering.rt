//! The worker's answer to a session that asks for the words of the pool.
ghost use Rattle.std.specs.Prelude.{◌≡◌, ◌+◌, ◌-◌, ◌^◌, min, List, OnErr, OnOk, false, true};
ghost use Rattle.std.specs.BTreeMap.{get};
ghost use Rattle.std.specs.Ordering.{nat_cmp};
ghost use Rattle.rws_config.specs.declared.config.Config.{Config};
ghost use Rattle.rws_record.specs.Run.{Entry, events_of, words_of};
ghost use Rattle.rws_select.specs.Choice.{HasScorer};
ghost use Rattle.rws_session.specs.Kept.{Kept};
ghost use Rattle.rws_worker.specs.declared.asker.Asker.TheVariants.{Awaits};
ghost use Rattle.rws_worker.specs.Standing.{Advances, WorkerStands, interactions_of};
ghost use Rattle.rws_worker.specs.Stepping.{is_awaiting};
ghost use Rattle.rws_worker.specs.Telling.{Responds, RespondsNone};

use crate::Worker;
use crate::asker::Asker;
use crate::worker::telling::TurnEnd;
use rws_config::Config;
use rws_pool::PoolWords;
use rws_select::{Load, Selector};
use std::alloc::AllocError;

impl Worker {
    /// Answers the session that asked, where one did: behind a Route, and before the next step. It goes on until it rests, or asks
    /// again.
    pub fn answer<F: Fn(&Load) -> u64 + Sync>(
        &mut self,
        words: &PoolWords,
        config: &Config,
        selector: &Selector<F>,
    )
        requires scorer { HasScorer F.Fn selector.now }
        ensures advances { (run : List Entry) → WorkerStands config.now self.old run → is_awaiting self.old.asker ≡ true
            → words.now ≡ words_of config.now run → Advances config.now (interactions_of run) (events_of run) self.new }
        ensures none { is_awaiting self.old.asker ≡ false → self.new ≡ self.old }
    {
        match self.asker {
            Asker::Awaits { session } => self.answer_to(session, words, config, selector),
            Asker::Asks { session: _ } => {}
            Asker::Nobody => {}
        }
    }

    /// Answers the session.
    fn answer_to<F: Fn(&Load) -> u64 + Sync>(
        &mut self,
        session: u32,
        words: &PoolWords,
        config: &Config,
        selector: &Selector<F>,
    )
        requires scorer { HasScorer F.Fn selector.now }
        ensures advances { (run : List Entry) → WorkerStands config.now self.old run → self.old.asker ≡ Awaits session
            → words.now ≡ words_of config.now run → Advances config.now (interactions_of run) (events_of run) self.new }
    {
        let loads = self.loads();
        self.asker = Asker::Nobody;
        self.count_out(session);
        match self.respond(session, words, &loads, config, selector) {
            Ok(()) => {
                let end = self.start(session, config);
                self.settle(session, end);
            }
            Err(AllocError) => self.settle(session, TurnEnd::Breaks),
        }
    }

    /// The session takes the answer in, and the next link is opened for it where it has none to its command's target.
    fn respond<F: Fn(&Load) -> u64 + Sync>(
        &mut self,
        session: u32,
        words: &PoolWords,
        loads: &[Load; 7],
        config: &Config,
        selector: &Selector<F>,
    ) -> Result<(), AllocError>
        requires scorer { HasScorer F.Fn selector.now }
        ensures ok { (before : Kept) → get nat_cmp self.old.sessions session ≡ Some before
            → OnOk result (Responds config.now words.now loads.now (min (self.old.last_link + 1) (2 ^ 64 - 1)) session before self.old self.new) }
        ensures err { (before : Kept) → get nat_cmp self.old.sessions session ≡ Some before
            → OnErr result (RespondsNone (min (self.old.last_link + 1) (2 ^ 64 - 1)) session before self.old self.new) }
        ensures rest { self.new ≡ record self.old { sessions = self.new.sessions; owners = self.new.owners; last_link = self.new.last_link } }
    {
        let next = self.last_link.saturating_add(1);
        self.owners.insert(next, session)?;
        let Some(asking) = self.sessions.get_mut(&session) else {
            return Ok(());
        };
        match asking.answer(words, loads, next, config, selector) {
            Ok(true) => {
                self.last_link = next;
                Ok(())
            }
            Ok(false) => {
                self.owners.remove(&next);
                Ok(())
            }
            Err(AllocError) => {
                self.owners.remove(&next);
                Err(AllocError)
            }
        }
    }
}
