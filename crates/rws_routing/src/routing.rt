//! The value and its steps.
ghost use Rattle.std.specs.Prelude.{◌≡◌};
ghost use Rattle.rws_routing.specs.Routings.{
  cleared,
  finds_late,
  from_by,
  goes_to_primary,
  is_late,
  link_for,
  lost,
  new_routing,
  routed,
  stopped,
  ticked,
  tried_by,
  turned_back,
  with_server,
};

use rws_gtid::Gtid;
use rws_route::Target;

/// What the server of a command's target is asked before the command, which is to see this commit.
#[derive(Clone, Copy, Debug, PartialEq, Eq)]
pub enum Check {
    /// A replica is to wait until it has the commit.
    Wait(Gtid),
    /// The primary is to tell its position.
    Probe(Gtid),
}

/// How far the pending command has come on its way to a server.
#[derive(Clone, Copy, Debug, PartialEq, Eq)]
pub struct Routing {
    /// What its last route found.
    pub target: Option<Target>,
    /// What the target's server is asked first, until it has answered.
    pub check: Option<Check>,
    /// The link that it is to go on, while the session has it.
    pub assigned: Option<u64>,
    /// A replica was asked, and hasn't what the command is to see: it goes to the primary.
    pub sent_back: bool,
    /// The servers whose links were lost with it: bit k stands for server k.
    pub tried: u8,
    /// No primary was found, and the clock showed nothing since.
    pub waits: bool,
    /// The clock's reading, in milliseconds, when none was found first.
    pub waits_from: Option<u64>,
    /// It waited, and the clock showed something: it is to be routed once more.
    pub retries: bool,
}

impl Routing {
    /// A command that was just taken up.
    pub fn new() -> Routing
        ensures { result ≡ new_routing }
    {
        Routing {
            target: None,
            check: None,
            assigned: None,
            sent_back: false,
            tried: 0,
            waits: false,
            waits_from: None,
            retries: false,
        }
    }

    /// It was routed when the clock's last reading was `now_ms`. `link` is the link that the session has to the server that was
    /// found; where there is none the command goes on the link of number `next`. That server is asked `check` first.
    pub fn routed(
        self,
        found: Target,
        check: Option<Check>,
        link: Option<u64>,
        next: u64,
        now_ms: u64,
    ) -> Routing
        ensures { result ≡ routed found check link next now_ms self }
    {
        let waits = found == Target::NoPrimary;
        Routing {
            target: Some(found),
            check,
            assigned: link_for(found, link, next),
            sent_back: self.sent_back,
            tried: self.tried,
            waits,
            waits_from: waiting_from(waits, self.waits_from, now_ms),
            retries: false,
        }
    }

    /// The clock shows `now_ms`. A command that waits is to be routed once more, and tries all servers again, unless it waited
    /// for `wait_ms` or longer.
    pub fn ticked(self, wait_ms: u64, now_ms: u64) -> Routing
        ensures { result ≡ ticked wait_ms now_ms self }
    {
        let again = self.waits && !is_late(wait_ms, self.waits_from, now_ms);
        Routing {
            target: self.target,
            check: self.check,
            assigned: self.assigned,
            sent_back: self.sent_back,
            tried: if again { 0 } else { self.tried },
            waits: false,
            waits_from: self.waits_from,
            retries: self.waits,
        }
    }

    /// The session lost a link, or gave it up: the command isn't to go on it any more, and its server counts as tried.
    pub fn lost(self, link: u64) -> Routing
        ensures { result ≡ lost link self }
    {
        if self.assigned != Some(link) {
            return self;
        }
        Routing {
            target: self.target,
            check: self.check,
            assigned: None,
            sent_back: self.sent_back,
            tried: with_target(self.target, self.tried),
            waits: self.waits,
            waits_from: self.waits_from,
            retries: self.retries,
        }
    }

    /// It was answered by the proxy: there is no primary, or that is behind.
    pub fn stopped(self) -> Routing
        ensures { result ≡ stopped self }
    {
        Routing {
            target: self.target,
            check: None,
            assigned: self.assigned,
            sent_back: self.sent_back,
            tried: self.tried,
            waits: false,
            waits_from: self.waits_from,
            retries: self.retries,
        }
    }

    /// The target's server has what the command is to see.
    pub fn cleared(self) -> Routing
        ensures { result ≡ cleared self }
    {
        Routing {
            target: self.target,
            check: None,
            assigned: self.assigned,
            sent_back: self.sent_back,
            tried: self.tried,
            waits: self.waits,
            waits_from: self.waits_from,
            retries: self.retries,
        }
    }

    /// It hasn't: the command is to be routed anew, to the primary.
    pub fn turned_back(self) -> Routing
        ensures { result ≡ turned_back self }
    {
        Routing {
            target: self.target,
            check: None,
            assigned: None,
            sent_back: true,
            tried: self.tried,
            waits: self.waits,
            waits_from: self.waits_from,
            retries: self.retries,
        }
    }

    /// It is routed once more behind a reading of the clock at which it had waited for `wait_ms` or longer: where there is again
    /// no primary, that is its answer.
    pub fn finds_late(self, wait_ms: u64, now_ms: u64) -> bool
        ensures { result ≡ finds_late wait_ms now_ms self }
    {
        self.retries && is_late(wait_ms, self.waits_from, now_ms)
    }

    /// Its last route found the primary.
    pub fn goes_to_primary(self) -> bool
        ensures { result ≡ goes_to_primary self }
    {
        matches!(self.target, Some(Target::Primary(_)))
    }
}

/// The link to what was found: one that the session has, or the next one.
fn link_for(found: Target, link: Option<u64>, next: u64) -> Option<u64>
    ensures { result ≡ link_for found link next }
{
    if found == Target::NoPrimary {
        return None;
    }
    Some(link.unwrap_or(next))
}

/// The reading from which on a command waits.
fn waiting_from(waits: bool, before: Option<u64>, now_ms: u64) -> Option<u64>
    ensures { result ≡ from_by waits now_ms before }
{
    if waits && before.is_none() {
        return Some(now_ms);
    }
    before
}

/// A reading is so far behind the one that was kept.
fn is_late(wait_ms: u64, kept: Option<u64>, now_ms: u64) -> bool
    ensures { result ≡ is_late wait_ms kept now_ms }
{
    let Some(end) = kept.and_then(|from| from.checked_add(wait_ms)) else {
        return false;
    };
    now_ms >= end
}

/// A set of servers with that of a target.
fn with_target(target: Option<Target>, tried: u8) -> u8
    ensures { result ≡ tried_by target tried }
{
    match target {
        Some(Target::Primary(server)) | Some(Target::Replica(server)) => with_server(server, tried),
        Some(Target::NoPrimary) | None => tried,
    }
}

/// A set of servers with one more of the seven that settings may name: bit k stands for server k.
pub fn with_server(server: u8, set: u8) -> u8
    ensures { result ≡ with_server server set }
{
    if server < 7 { set | (1 << server) } else { set }
}
