//! What comes of a round of the monitor: it is taken into the words of the pool, unless it names a server that the settings
//! lack.
ghost use Rattle.std.specs.Prelude.{◌≡◌, List, None};
ghost use Rattle.rws_board.specs.declared.event.Event.TheVariants as events;
ghost use Rattle.rws_config.specs.declared.config.Config.{Config};
ghost use Rattle.rws_record.specs.Run.{Entry, names_none, names_only};
ghost use Rattle.rws_worker.specs.Standing.{Gives, WorkerStands};
ghost use Rattle.rws_worker.specs.Stepping.{IsIdle};

use crate::Worker;
use rws_config::Config;
use rws_pool::{Round, Seen};

impl Worker {
    /// The monitor ended a round, which is kept until a step gives it out.
    pub(super) fn observe(&mut self, round: Round, config: &Config)
        requires idle { IsIdle self.old }
        ensures advances { (run : List Entry) → WorkerStands config.now self.old run
            → Gives config.now run (events.Observed round) self.new }
    {
        if names_only(config.servers.len(), &round) {
            self.observed = Some(round);
        }
    }

    /// The round that is to be taken in, which then isn't kept any more.
    pub(super) fn next_round(&mut self) -> Option<Round>
        ensures taken { result ≡ self.old.observed }
        ensures rest { self.new ≡ record self.old { observed = None } }
        ensures stands { (config : Config) (run : List Entry) → WorkerStands config self.old run → WorkerStands config self.new run }
    {
        self.observed.take()
    }
}

/// The round names none but so many servers from the first on.
fn names_only(count: usize, round: &Round) -> bool
    ensures { result ≡ names_only count round.now }
{
    match round.seen.get(count..) {
        Some(behind) => names_none(behind),
        None => true,
    }
}

/// No server is named.
fn names_none(seen: &[Option<Seen>]) -> bool
    ensures { result ≡ names_none seen.now }
{
    match seen {
        [] => true,
        [None, more @ ..] => names_none(more),
        [Some(_), ..] => false,
    }
}
