//! The rule of a round.
ghost use Rattle.std.specs.Prelude.{◌≡◌, ◌↔◌, ◌<◌, ℕ, None, Some, IfSome, position, slice_index_or, map, IsTrue};
ghost use Rattle.std.specs.List.{range_with_len, list_all};
ghost use Rattle.rws_monitor.specs.Rounds.{is_in, counted_at, counted, is_root, is_root_at, names, followers, is_within, leads, primary_of, kept_id, follows, role, is_at, seen_in, seen_at, round_of};
ghost use Rattle.rws_monitor.specs.Shown.{IsMaster, HasOneMaster, IsOutOfService, ArePositionsProbed};

use crate::probe::{Probe, Source};
use rws_pool::{Round, Seen, State};

/// What is known of the servers after a round.
#[derive(Clone, Copy, Debug, PartialEq, Eq)]
pub struct States {
    /// What the round tells the workers.
    pub round: Round,
    /// The index of the primary, if there is one.
    pub primary: Option<u8>,
    /// The `server_id` of the primary, or of the last one where there is none now; 0 before the first.
    pub primary_id: u32,
}

/// The states after a round: `probes` is by index, None for a server that wasn't asked; bit k of `maintenance` stands for server k.
pub fn round(probes: &[Option<Probe>; 7], maintenance: u8, old: &States) -> States
    ensures rules { result ≡ round_of probes.now maintenance old.now }

    ensures master { (server : ℕ) → IsMaster result server ↔ (result.primary ≡ Some server) }
    ensures one_master { HasOneMaster result }
    ensures maintenance { (server : ℕ) → server < 7 → IsTrue (is_in maintenance server) → IsOutOfService result server }
    ensures positions { ArePositionsProbed probes.now result }
{
    let counted = counted(probes, maintenance);
    let primary = primary(&counted, old.primary);
    let primary_id = kept_id(&counted, primary, old.primary_id);
    let round = Round {
        seen: seen(probes, maintenance, primary, primary_id),
    };
    States {
        round,
        primary,
        primary_id,
    }
}

/// The probes without those of servers in maintenance.
fn counted(probes: &[Option<Probe>; 7], maintenance: u8) -> [Option<Probe>; 7]
    ensures { result ≡ counted probes.now maintenance }
{
    let mut counted = [None; 7];
    for server in 0..7 {
        counted[usize::from(server)] = counted_at(probes, maintenance, server);
    }
    counted
}

/// The probe of a server that isn't in maintenance.
fn counted_at(probes: &[Option<Probe>; 7], maintenance: u8, server: u8) -> Option<Probe>
    requires { server < 7 }
    ensures { result ≡ counted_at probes.now maintenance server }
{
    if is_in(maintenance, server) {
        None
    } else {
        probes[usize::from(server)]
    }
}

/// The old primary where it is a root, else the root that most servers name as their source, of several the first.
fn primary(counted: &[Option<Probe>; 7], old: Option<u8>) -> Option<u8>
    ensures { result ≡ primary_of counted.now old }
{
    if is_root_at(counted, old) {
        return old;
    }
    let leader = leader(counted)?;
    Some(leader as u8)
}

/// The first of the roots that most servers name as their source.
fn leader(counted: &[Option<Probe>; 7]) -> Option<usize>
    ensures server { result ≡ position (leads counted.now) counted.now }
    ensures within { IfSome result (λ server. server < 7) }
{
    counted.iter().position(|probe| leads(counted, *probe))
}

/// Whether it is a root, and no root is named by more servers.
fn leads(counted: &[Option<Probe>; 7], root: Option<Probe>) -> bool
    ensures { result ≡ leads counted.now root }
{
    is_root(root) && all_within(counted, followers(counted, root))
}

/// Whether no root is named by more servers than this.
fn all_within(counted: &[Option<Probe>; 7], most: usize) -> bool
    ensures { result ≡ list_all (is_within counted.now most) counted.now }
{
    counted.iter().all(|probe| is_within(counted, most, *probe))
}

/// Whether it isn't a root that is named by more servers than this.
fn is_within(counted: &[Option<Probe>; 7], most: usize, probe: Option<Probe>) -> bool
    ensures { result ≡ is_within counted.now most probe }
{
    !is_root(probe) || followers(counted, probe) <= most
}

/// How many of the found servers name this one as their source.
fn followers(counted: &[Option<Probe>; 7], root: Option<Probe>) -> usize
    ensures { result ≡ followers counted.now root }
{
    match root {
        Some(Probe::Found { server_id, .. }) => counted
            .iter()
            .filter(|probe| names(server_id, **probe))
            .count(),
        _ => 0,
    }
}

/// Whether the server was found and names this one as its source.
fn names(server_id: u32, probe: Option<Probe>) -> bool
    ensures { result ≡ names server_id probe }
{
    match probe {
        Some(
            Probe::Found {
                source: Some(source),
                ..
            },
        ) => source.primary_id == server_id,
        _ => false,
    }
}

/// Whether the server was found, and has no source.
fn is_root(probe: Option<Probe>) -> bool
    ensures { result ≡ is_root probe }
{
    matches!(probe, Some(Probe::Found { source: None, .. }))
}

/// Whether there is a server at this index, and it is a root.
fn is_root_at(counted: &[Option<Probe>; 7], server: Option<u8>) -> bool
    ensures { result ≡ is_root_at counted.now server }
{
    match server {
        Some(server) => is_root(probe_at(counted, server)),
        None => false,
    }
}

/// The probe at this index, None beyond the last.
fn probe_at(probes: &[Option<Probe>; 7], server: u8) -> Option<Probe>
    ensures { result ≡ slice_index_or probes.now server None }
{
    let server = usize::from(server);
    if server < probes.len() {
        probes[server]
    } else {
        None
    }
}

/// The id of the primary, the old one where there is none.
fn kept_id(counted: &[Option<Probe>; 7], primary: Option<u8>, old: u32) -> u32
    ensures { result ≡ kept_id counted.now primary old }
{
    let Some(primary) = primary else {
        return old;
    };
    match probe_at(counted, primary) {
        Some(Probe::Found { server_id, .. }) => server_id,
        _ => old,
    }
}

/// What the workers are told of each server.
fn seen(
    probes: &[Option<Probe>; 7],
    maintenance: u8,
    primary: Option<u8>,
    primary_id: u32,
) -> [Option<Seen>; 7]
    ensures { result ≡ map (seen_at probes.now maintenance primary primary_id) (range_with_len 0 7) }
{
    let mut seen = [None; 7];
    for server in 0..7 {
        seen[usize::from(server)] = seen_at(probes, maintenance, primary, primary_id, server);
    }
    seen
}

/// What the workers are told of the server at this index, None if nothing.
fn seen_at(
    probes: &[Option<Probe>; 7],
    maintenance: u8,
    primary: Option<u8>,
    primary_id: u32,
    server: u8,
) -> Option<Seen>
    requires { server < 7 }
    ensures { result ≡ seen_at probes.now maintenance primary primary_id server }
{
    let out = is_in(maintenance, server);
    seen_in(
        out,
        is_at(primary, server),
        primary_id,
        probes[usize::from(server)],
    )
}

/// Whether the primary is the server at this index.
fn is_at(primary: Option<u8>, server: u8) -> bool
    ensures { result ≡ is_at primary server }
{
    match primary {
        Some(primary) => primary == server,
        None => false,
    }
}

/// What the workers are told of a server by its probe, None if nothing.
fn seen_in(out: bool, is_primary: bool, primary_id: u32, probe: Option<Probe>) -> Option<Seen>
    ensures { result ≡ seen_in out is_primary primary_id probe }
{
    if out {
        return Some(Seen {
            state: State::Maintenance,
            position: 0,
        });
    }
    match probe? {
        Probe::Down => Some(Seen {
            state: State::Down,
            position: 0,
        }),
        Probe::Found {
            position,
            source,
            ..
        } => Some(Seen {
            state: role(is_primary, primary_id, source),
            position,
        }),
    }
}

/// The state of a server that was found.
fn role(is_primary: bool, primary_id: u32, source: Option<Source>) -> State
    ensures { result ≡ role is_primary primary_id source }
{
    if is_primary {
        State::Master
    } else if follows(primary_id, source) {
        State::Slave
    } else {
        State::Running
    }
}

/// Whether the server fetches and applies what the server of this id changes.
fn follows(primary_id: u32, source: Option<Source>) -> bool
    ensures { result ≡ follows primary_id source }
{
    match source {
        Some(source) => source.io && source.sql && source.primary_id == primary_id,
        None => false,
    }
}

/// Whether the server at this index is in the set: bit k stands for server k.
fn is_in(set: u8, server: u8) -> bool
    requires { server < 7 }
    ensures { result ≡ is_in set server }
{
    set & (1 << server) != 0
}
