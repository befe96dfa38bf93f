//! Worked rounds.

use crate::{Probe, Source, States, round};
use rws_pool::{Round, Seen, State};
use std::test::Fail;

/// Replicates from server 1, and applies what it fetches.
const OF_ONE: Option<Source> = Some(Source {
    io: true,
    sql: true,
    primary_id: 1,
});

/// Connects to server 2, and doesn't apply.
const STOPPED: Option<Source> = Some(Source {
    io: true,
    sql: false,
    primary_id: 2,
});

const DOWN: Option<Probe> = Some(Probe::Down);

const fn found(server_id: u32, position: u64, source: Option<Source>) -> Option<Probe> {
    Some(Probe::Found {
        server_id,
        position,
        source,
    })
}

const fn seen(state: State, position: u64) -> Option<Seen> {
    Some(Seen { state, position })
}

/// The first three probes of a round, the old primary and its id, the servers in maintenance; what is seen of the three,
/// the primary and its id.
type Row = (
    [Option<Probe>; 3],
    (Option<u8>, u32),
    u8,
    [Option<Seen>; 3],
    (Option<u8>, u32),
);

/// The round of the first three servers.
fn round_of_three(probes: &[Option<Probe>; 3], old: (Option<u8>, u32), maintenance: u8) -> States {
    let [a, b, c] = *probes;
    let old = States {
        round: Round { seen: [None; 7] },
        primary: old.0,
        primary_id: old.1,
    };
    round(&[a, b, c, None, None, None, None], maintenance, &old)
}

#[test]
fn worked_rounds(rt: HostRuntime) -> Result<(), Fail> {
    let one = found(1, 9, None);
    let two = found(2, 9, None);
    let replica = found(3, 6, OF_ONE);
    let master = seen(State::Master, 9);
    let running = seen(State::Running, 9);
    let down = seen(State::Down, 0);
    let out = seen(State::Maintenance, 0);
    let slave = seen(State::Slave, 6);
    let rows: [Row; 9] = [
        // a primary, its replica and one that is down
        (
            [one, replica, DOWN],
            (None, 0),
            0,
            [master, slave, down],
            (Some(0), 1),
        ),
        // two servers without a source: the first, or the old primary
        (
            [one, two, DOWN],
            (None, 0),
            0,
            [master, running, down],
            (Some(0), 1),
        ),
        (
            [one, two, DOWN],
            (Some(1), 2),
            0,
            [running, master, down],
            (Some(1), 2),
        ),
        // the one that a found server follows
        (
            [two, one, replica],
            (None, 0),
            0,
            [running, master, slave],
            (Some(1), 1),
        ),
        // the old primary is down: the id stays, and so do its replicas
        (
            [DOWN, replica, None],
            (Some(0), 1),
            0,
            [down, slave, None],
            (None, 1),
        ),
        // the old primary is out
        (
            [one, two, replica],
            (Some(0), 1),
            1,
            [out, master, seen(State::Running, 6)],
            (Some(1), 2),
        ),
        // a replica in maintenance makes nobody primary
        (
            [two, one, replica],
            (None, 0),
            4,
            [master, running, out],
            (Some(0), 2),
        ),
        // one that follows another, or doesn't apply
        (
            [two, replica, found(4, 6, STOPPED)],
            (None, 0),
            0,
            [master, seen(State::Running, 6), seen(State::Running, 6)],
            (Some(0), 2),
        ),
        // an old primary that isn't there
        (
            [None, None, None],
            (Some(200), 7),
            0,
            [None, None, None],
            (None, 7),
        ),
    ];
    for (probes, old, maintenance, wanted, primary) in rows {
        let found = round_of_three(&probes, old, maintenance);
        let [a, b, c, ..] = found.round.seen;
        assert_eq!(rt; [a, b, c], wanted);
        assert_eq!(rt; (found.primary, found.primary_id), primary);
    }
    Ok(())
}
