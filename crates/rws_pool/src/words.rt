//! The words of the pool and the three steps on them.
//!
//! No position falls and no last commit is replaced by one of a lower sequence, whatever step is taken.
ghost use Rattle.std.specs.Prelude.{◌≡◌, ◌<◌, nat_lt, if◌then◌else◌};
ghost use Rattle.rws_pool.specs.Machine.{new_words, later, raised, observed, recorded, each_observed, pool_step, CanStep};

use crate::events::PoolEvent;
use rws_gtid::Gtid;

/// The role of a server, as the monitor sees it.
#[derive(Clone, Copy, Debug, PartialEq, Eq)]
pub enum State {
    /// It doesn't answer.
    Down,
    /// It answers, and is neither a replica that follows nor the primary.
    Running,
    /// A replica that follows the primary.
    Slave,
    /// The server that takes writes.
    Master,
    /// Taken out by the operator.
    Maintenance,
}

/// What is known of one server.
#[derive(Clone, Copy, Debug, PartialEq, Eq)]
pub struct Seen {
    /// Its role.
    pub state: State,
    /// The greatest sequence that the server is known to have, 0 where none is.
    pub position: u64,
}

/// What one round of the monitor found, by index. None is a server that the round leaves out.
#[derive(Clone, Copy, Debug, PartialEq, Eq)]
pub struct Round {
    /// By index.
    pub seen: [Option<Seen>; 7],
}

/// The words that all workers share.
#[derive(Clone, Copy, Debug, PartialEq, Eq)]
pub struct PoolWords {
    /// The GTID of the greatest sequence that was recorded, `domain-0-0` where none was.
    pub last: Gtid,
    /// What is known of the servers, by index.
    pub servers: [Seen; 7],
}

impl Seen {
    /// The same server once its position has reached this sequence.
    fn raised(self, sequence: u64) -> Seen
        ensures { result ≡ raised self sequence }
    {
        Seen {
            state: self.state,
            position: self.position.max(sequence),
        }
    }

    /// The same server after a round that may name it.
    fn observed(self, named: Option<Seen>) -> Seen
        ensures { result ≡ observed self named }
    {
        match named {
            Some(named) => Seen {
                state: named.state,
                position: self.position.max(named.position),
            },
            None => self,
        }
    }
}

impl PoolWords {
    /// All servers down at position 0, and nothing recorded.
    pub fn new(domain: u32) -> PoolWords
        ensures { result ≡ new_words domain }
    {
        PoolWords {
            last: Gtid {
                domain,
                server: 0,
                sequence: 0,
            },
            servers: [Seen {
                state: State::Down,
                position: 0,
            }; 7],
        }
    }

    /// Records a commit of the server at this index.
    pub fn record(&mut self, server: u8, gtid: Gtid)
        requires server { server < 7 }
        requires domain { gtid.domain ≡ self.old.last.domain }
        ensures step { self.new ≡ recorded self.old server gtid }
        ensures last { self.new.last ≡ (if nat_lt self.old.last.sequence gtid.sequence then gtid else self.old.last) }
        ensures domain { self.new.last.domain ≡ self.old.last.domain }
    {
        self.last = later(self.last, gtid);
        let seen = self.servers[usize::from(server)];
        self.servers[usize::from(server)] = seen.raised(gtid.sequence);
    }

    /// Takes in one round of the monitor.
    pub fn observe(&mut self, round: &Round)
        ensures last { self.new.last ≡ self.old.last }
        ensures servers { self.new.servers ≡ each_observed self.old.servers round.now.seen }
    {
        for place in 0..7 {
            let seen = self.servers[place];
            self.servers[place] = seen.observed(round.seen[place]);
        }
    }

    /// Takes the step of this event.
    pub fn apply(&mut self, event: &PoolEvent)
        requires { CanStep self.old.last.domain event.now }
        ensures step { self.new ≡ pool_step self.old event.now }
        ensures domain { self.new.last.domain ≡ self.old.last.domain }
    {
        match event {
            PoolEvent::Route => {}
            PoolEvent::Record { server, gtid } => self.record(*server, *gtid),
            PoolEvent::Observe { round } => self.observe(round),
        }
    }
}

/// The GTID of the greater sequence, the first at a tie.
fn later(last: Gtid, gtid: Gtid) -> Gtid
    requires { gtid.domain ≡ last.domain }
    ensures step { result ≡ later last gtid }
    ensures last { result ≡ (if nat_lt last.sequence gtid.sequence then gtid else last) }
    ensures domain { result.domain ≡ last.domain }
{
    if last.sequence < gtid.sequence {
        gtid
    } else {
        last
    }
}
