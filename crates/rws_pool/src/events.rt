//! The calls of the sessions to the pool, the events that they are, and the entries of a history.
ghost use Rattle.std.specs.Prelude.{◌≡◌};
ghost use Rattle.rws_pool.specs.History.{event_of};

use crate::words::Round;
use rws_gtid::Gtid;

/// A call to the pool.
#[derive(Clone, Copy, Debug, PartialEq, Eq)]
pub enum PoolCall {
    /// Asks for the words, for a command of this session.
    Route { session: u32 },
    /// A commit of the server at this index.
    Record { server: u8, gtid: Gtid },
    /// One round of the monitor.
    Observe { round: Round },
}

/// An event of the pool: a call without its session.
#[derive(Clone, Copy, Debug, PartialEq, Eq)]
pub enum PoolEvent {
    /// The words were asked for, which changes nothing.
    Route,
    /// The server at this index made a commit.
    Record { server: u8, gtid: Gtid },
    /// The monitor ended a round.
    Observe { round: Round },
}

/// One entry of a history: an event and the number of the pass that made it.
#[derive(Clone, Copy, Debug, PartialEq, Eq)]
pub struct Entry {
    /// The number of the pass.
    pub pass: u64,
    /// What it did.
    pub event: PoolEvent,
}

impl PoolCall {
    /// The event that the call is.
    pub fn event(&self) -> PoolEvent
        ensures { result ≡ event_of self.now }
    {
        match self {
            PoolCall::Route { session: _ } => PoolEvent::Route,
            PoolCall::Record { server, gtid } => PoolEvent::Record {
                server: *server,
                gtid: *gtid,
            },
            PoolCall::Observe { round } => PoolEvent::Observe { round: *round },
        }
    }
}
