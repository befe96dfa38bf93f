//! What a worker has open to each server, as sums over its sessions.
ghost use Rattle.std.specs.Prelude.{◌≡◌, ℕ, ◌+◌, ◌-◌, ◌<◌, ◌^◌, List, min};
ghost use Rattle.rws_config.specs.declared.config.Config.{Config};
ghost use Rattle.rws_record.specs.Item.{Item};
ghost use Rattle.rws_session.specs.Kept.{Is};
ghost use Rattle.rws_worker.specs.declared.tally.Tally.{Tally};
ghost use Rattle.rws_worker.specs.Tallies.{Fits, load_by, minus, plus, seven, tally_in};

use rws_select::Load;
use rws_session::Session;

/// What a worker has open to one server.
#[derive(Clone, Copy)]
pub(crate) struct Tally {
    /// The links on which a command awaits its reply,
    pending: u64,
    /// and all.
    links: u64,
}

/// Nothing is open.
pub(crate) const NONE: Tally = Tally {
    pending: 0,
    links: 0,
};

/// The greatest count that a load has.
const MOST: u64 = 65535;

impl Tally {
    /// What is left of it without a session's links to this server.
    fn less(self, session: &Session, server: u8) -> Tally
        ensures { (config : Config) (past : List Item) → Is config session.now past → result ≡ minus self (tally_in past server) }
    {
        let its = session.load(server);
        Tally {
            pending: self.pending.saturating_sub(its.pending),
            links: self.links.saturating_sub(its.links),
        }
    }

    /// It with a session's links to this server.
    fn more(self, session: &Session, server: u8) -> Tally
        ensures { (config : Config) (past : List Item) → Is config session.now past → Fits (plus self (tally_in past server))
            → result ≡ plus self (tally_in past server) }
    {
        let its = session.load(server);
        Tally {
            pending: self.pending.saturating_add(its.pending),
            links: self.links.saturating_add(its.links),
        }
    }

    /// The load by which a server is chosen.
    fn load(self) -> Load
        ensures { result ≡ load_by self }
    {
        Load {
            pending: capped(self.pending),
            links: capped(self.links),
        }
    }
}

/// A count that a load can have.
fn capped(count: u64) -> u16
    ensures { result ≡ min count 65535 }
{
    if count < MOST { count as u16 } else { 65535 }
}

/// What is open without a session's links.
pub(crate) fn without(tallies: &[Tally; 7], session: &Session) -> [Tally; 7]
    ensures { (config : Config) (past : List Item) → Is config session.now past → (rest : ℕ → Tally)
        → tallies.now ≡ seven (λ server. plus (rest server) (tally_in past server)) → result ≡ seven rest }
{
    all_less(tallies, session)
}

/// A session's links are taken off.
fn all_less(tallies: &[Tally; 7], session: &Session) -> [Tally; 7]
    ensures { (config : Config) (past : List Item) → Is config session.now past → (all : ℕ → Tally) → tallies.now ≡ seven all
        → result ≡ seven (λ server. minus (all server) (tally_in past server)) }
{
    let [a, b, c, d, e, f, g] = *tallies;
    [
        a.less(session, 0),
        b.less(session, 1),
        c.less(session, 2),
        d.less(session, 3),
        e.less(session, 4),
        f.less(session, 5),
        g.less(session, 6),
    ]
}

/// What is open with a session's links.
pub(crate) fn with(tallies: &[Tally; 7], session: &Session) -> [Tally; 7]
    ensures { (config : Config) (past : List Item) → Is config session.now past → (rest : ℕ → Tally) → tallies.now ≡ seven rest
        → ((server : ℕ) → Fits (plus (rest server) (tally_in past server)))
        → result ≡ seven (λ server. plus (rest server) (tally_in past server)) }
{
    let [a, b, c, d, e, f, g] = *tallies;
    [
        a.more(session, 0),
        b.more(session, 1),
        c.more(session, 2),
        d.more(session, 3),
        e.more(session, 4),
        f.more(session, 5),
        g.more(session, 6),
    ]
}

/// The loads by which servers are chosen.
pub(crate) fn loads(tallies: &[Tally; 7]) -> [Load; 7]
    ensures { (rest : ℕ → Tally) → tallies.now ≡ seven rest → result ≡ seven (λ server. load_by (rest server)) }
{
    let [a, b, c, d, e, f, g] = *tallies;
    [
        a.load(),
        b.load(),
        c.load(),
        d.load(),
        e.load(),
        f.load(),
        g.load(),
    ]
}
