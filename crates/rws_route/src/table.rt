//! The table of targets, and the sets and candidates that it speaks of.
ghost use Rattle.std.specs.Prelude.{◌≡◌, ◌<◌, IfSome};
ghost use Rattle.rws_select.specs.Choice.{HasScorer};
ghost use Rattle.rws_route.specs.Targets.{is_in, is_master, may_leave_primary, candidate_at, candidates_of, primary_of, primary_target, IsTarget, target_of};

use crate::destination::Target;
use rws_class::Class;
use rws_pool::{PoolWords, Seen, State};
use rws_select::{Load, Selector};

/// The target of a command. `loads` is by index; bit k of `tried` and `banned` stands for server k.
///
/// `sent_back`: a replica didn't reach in time what the command has to see, so the primary is to answer it. `tried`: the
/// servers whose link was lost with this command; it goes to none of them again. `banned`: the servers that answered a
/// setting of this session otherwise than the primary did; they are no candidates for its reads, and still serve as primary.
pub fn target<F: Fn(&Load) -> u64 + Sync>(
    class: Class,
    autocommit: bool,
    sent_back: bool,
    words: &PoolWords,
    loads: &[Load; 7],
    tried: u8,
    banned: u8,
    selector: &Selector<F>,
) -> Target
    requires { HasScorer F.Fn selector.now }
    ensures table { IsTarget class autocommit sent_back words.now loads.now tried banned result }
    ensures function { result ≡ target_of class autocommit sent_back words.now loads.now tried banned }
{
    if !may_leave_primary(class, autocommit, sent_back) {
        return primary_target(&words.servers, tried);
    }
    match selector.choose(&candidates(&words.servers, loads, tried, banned)) {
        Some(place) => Target::Replica(place),
        None => primary_target(&words.servers, tried),
    }
}

/// A read with autocommit on that no causal wait sent back.
fn may_leave_primary(class: Class, autocommit: bool, sent_back: bool) -> bool
    ensures { result ≡ may_leave_primary class autocommit sent_back }
{
    matches!(class, Class::Read | Class::BeginReadOnly) && autocommit && !sent_back
}

/// The primary, unless it was tried.
fn primary_target(servers: &[Seen; 7], tried: u8) -> Target
    ensures { result ≡ primary_target servers.now tried }
{
    let Some(place) = primary(servers) else {
        return Target::NoPrimary;
    };
    let place = place as u8;
    if is_in(tried, place) {
        Target::NoPrimary
    } else {
        Target::Primary(place)
    }
}

/// The server of lowest index whose state is Master.
fn primary(servers: &[Seen; 7]) -> Option<usize>
    ensures place { result ≡ primary_of servers.now }
    ensures within { IfSome result (λ place. place < 7) }
{
    servers.iter().position(|seen| is_master(seen.state))
}

/// Whether a server of this state may be the primary.
fn is_master(state: State) -> bool
    ensures { result ≡ is_master state }
{
    matches!(state, State::Master)
}

/// The loads of the replicas that may be taken.
fn candidates(servers: &[Seen; 7], loads: &[Load; 7], tried: u8, banned: u8) -> [Option<Load>; 7]
    ensures { result ≡ candidates_of servers.now loads.now tried banned }
{
    let mut candidates = [None; 7];
    for place in 0..7 {
        candidates[usize::from(place)] = candidate(servers, loads, tried, banned, place);
    }
    candidates
}

/// The load of a server, where it is a replica that may be taken.
fn candidate(
    servers: &[Seen; 7],
    loads: &[Load; 7],
    tried: u8,
    banned: u8,
    place: u8,
) -> Option<Load>
    requires { place < 7 }
    ensures { result ≡ candidate_at servers.now loads.now tried banned place }
{
    let index = usize::from(place);
    let free = !is_in(tried, place) && !is_in(banned, place);
    if servers[index].state == State::Slave && free {
        Some(loads[index])
    } else {
        None
    }
}

/// Whether the server at this place is in the set: bit k stands for server k.
fn is_in(set: u8, place: u8) -> bool
    requires { place < 7 }
    ensures { result ≡ is_in set place }
{
    set & (1 << place) != 0
}
