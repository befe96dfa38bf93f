//! The three rules on one pool: what comes before a read, and what an answer lets through.

use crate::{Causal, after_probe, after_wait, begin, commit_in};
use rws_gtid::Gtid;
use rws_pool::{PoolWords, Round, Seen, State};
use rws_result::{Rows, read_rows};
use rws_wire::{Mode, PayloadList, Text};
use std::alloc::Global;
use std::test::Fail;

/// The commit that the reads want.
const SEVENTH: Gtid = Gtid {
    domain: 0,
    server: 1,
    sequence: 7,
};

/// A primary and two replicas, of which one has the seventh commit.
fn words() -> PoolWords {
    let mut words = PoolWords::new(0);
    words.record(0, SEVENTH);
    let mut round = Round { seen: [None; 7] };
    round.seen[1] = Some(Seen {
        state: State::Slave,
        position: 7,
    });
    round.seen[2] = Some(Seen {
        state: State::Slave,
        position: 6,
    });
    words.observe(&round);
    words
}

/// What comes before a read, by its mode and own commit, on which server and whether that is the primary.
const BEGINS: [(Mode, Option<Gtid>, u8, bool, Causal); 7] = [
    (Mode::Global, None, 1, false, Causal::Go),
    (Mode::Global, None, 2, false, Causal::Wait(SEVENTH)),
    (Mode::Global, None, 2, true, Causal::Probe(SEVENTH)),
    (Mode::Global, None, 0, true, Causal::Go),
    (Mode::Local, None, 2, false, Causal::Go),
    (Mode::Local, Some(SEVENTH), 2, false, Causal::Wait(SEVENTH)),
    (Mode::Nothing, Some(SEVENTH), 2, false, Causal::Go),
];

#[test]
fn before_a_read(rt: HostRuntime) {
    let words = words();
    for (mode, own, server, on_primary, next) in BEGINS {
        if server < 7 {
            assert_eq!(rt; begin(mode, &words, own, server, on_primary), next);
        }
    }
    assert_eq!(rt;
        begin(Mode::Global, &PoolWords::new(0), None, 6, false),
        Causal::Go
    );
}

/// The rows of a result of one column, as a server sends them.
fn rows_of(alloc: Global, rows: &[&[u8]]) -> Result<Rows, Fail> {
    let eof = b"\xfe\x00\x00\x02\x00";
    let definition =
        b"\x03def\x00\x00\x00\x01v\x00\x0c?\x00\x01\x00\x00\x00\x03\x81\x00\x00\x00\x00";
    let mut payloads = PayloadList::new(alloc);
    for payload in [b"\x01".as_slice(), definition, eof] {
        payloads.push(Text::from_slice(alloc, payload)?)?;
    }
    for row in rows {
        payloads.push(Text::from_slice(alloc, row)?)?;
    }
    payloads.push(Text::from_slice(alloc, eof)?)?;
    Ok(read_rows(alloc, &payloads)?)
}

/// Rows that answer a wait.
const WAITS: [(&[&[u8]], Causal); 8] = [
    (&[b"\x010"], Causal::Go),
    (&[b"\x02-1"], Causal::TryPrimary),
    (&[b"\x011"], Causal::TryPrimary),
    (&[b"\x0200"], Causal::TryPrimary),
    (&[b"\x00"], Causal::TryPrimary),
    (&[b"\xfb"], Causal::TryPrimary),
    (&[b"\x010", b"\x010"], Causal::TryPrimary),
    (&[], Causal::TryPrimary),
];

#[test]
fn answers_to_a_wait(rt: HostRuntime) -> Result<(), Fail> {
    for (rows, next) in WAITS {
        let rows = rows_of(rt.alloc(), rows)?;
        assert_eq!(rt; after_wait(Some(&rows)), next);
    }
    assert_eq!(rt; after_wait(None), Causal::TryPrimary);
    Ok(())
}

/// Primaries that are behind.
const AT_SIX: Causal = Causal::Stale {
    wanted: 7,
    found: 6,
};

const NOWHERE: Causal = Causal::Stale {
    wanted: 7,
    found: 0,
};

/// Rows that answer a probe.
const PROBES: [(&[&[u8]], Causal); 10] = [
    (&[b"\x050-1-7"], Causal::Go),
    (&[b"\x0b1-1-2,0-9-8"], Causal::Go),
    (&[b"\x050-1-6"], AT_SIX),
    (&[b"\x051-1-9"], NOWHERE),
    (&[b"\x00"], NOWHERE),
    (&[b"\xfb"], Causal::Unreadable),
    (&[b"\x040-1-"], Causal::Unreadable),
    (&[b"\x060-1-7 "], Causal::Unreadable),
    (&[b"\x050-1-7", b"\x050-1-7"], Causal::Unreadable),
    (&[], Causal::Unreadable),
];

#[test]
fn answers_to_a_probe(rt: HostRuntime) -> Result<(), Fail> {
    for (rows, next) in PROBES {
        let rows = rows_of(rt.alloc(), rows)?;
        assert_eq!(rt; after_probe(Some(&rows), SEVENTH), next);
    }
    assert_eq!(rt; after_probe(None, SEVENTH), Causal::Unreadable);
    Ok(())
}

/// The OK of an autocommit insert, as MariaDB sends it where `last_gtid` is tracked: its state has one entry, of type 0.
const COMMIT: &[u8] = b"\x00\x01\x00\x02\x40\x00\x00\x00\x12\x00\x10\x09last_gtid\x050-1-7";

#[test]
fn commits_that_oks_tell_of(rt: HostRuntime) -> Result<(), Fail> {
    let alloc = rt.alloc();
    assert_eq!(rt; commit_in(alloc, COMMIT, 0)?, Some(SEVENTH));
    assert_eq!(rt; commit_in(alloc, COMMIT, 1)?, None);
    assert_eq!(rt; commit_in(alloc, &COMMIT[..COMMIT.len() - 1], 0)?, None);
    assert_eq!(rt; commit_in(alloc, b"\x00\x00\x00\x02\x00\x00\x00", 0)?, None);
    Ok(())
}
