//! Replies to the monitor's two statements.

use crate::{Probe, Source, read_probe};
use rws_wire::{PayloadList, Text};
use std::alloc::Global;
use std::test::Fail;

const EOF: &[u8] = b"\xfe\x00\x00\x02\x00";

const OK: &[u8] = b"\x00\x00\x00\x02\x00\x00\x00";

const ERR: &[u8] = b"\xff\x15\x04#28000no";

/// What stands before the rows of the first reply.
const FIRST: &[&[u8]] = &[
    b"\x02",
    b"\x03def\x00\x00\x00\x0b@@server_id\x00\x0c?\x00\x14\x00\x00\x00\x08\x81\x00\x00\x00\x00",
    b"\x03def\x00\x00\x00\x12@@gtid_current_pos\x00\x0c-\x00\xff\x00\x00\x00\xfd\x00\x00\x27\x00\x00",
    EOF,
];

const FIRST_ROW: &[u8] = b"\x013\x050-1-9";

const IO: &[u8] =
    b"\x03def\x00\x00\x00\x10Slave_IO_Running\x00\x0c-\x00\x0a\x00\x00\x00\xfd\x01\x00\x27\x00\x00";

const SQL: &[u8] =
    b"\x03def\x00\x00\x00\x11Slave_SQL_Running\x00\x0c-\x00\x03\x00\x00\x00\xfd\x01\x00\x27\x00\x00";

const MASTER: &[u8] =
    b"\x03def\x00\x00\x00\x10Master_Server_Id\x00\x0c?\x00\x0a\x00\x00\x00\x03\x21\x00\x00\x00\x00";

/// What stands before the rows of the second reply.
const SECOND: &[&[u8]] = &[b"\x03", IO, SQL, MASTER, EOF];

const SECOND_ROW: &[u8] = b"\x03Yes\x03Yes\x011";

/// Parts of a reply in one list, of which the last payload is cut to its first `size` bytes.
fn list_of(alloc: Global, parts: &[&[&[u8]]], size: usize) -> Result<PayloadList, Fail> {
    let mut list = PayloadList::new(alloc);
    for (at, part) in parts.iter().enumerate() {
        for (place, payload) in part.iter().enumerate() {
            let is_last = at + 1 == parts.len() && place + 1 == part.len();
            let kept = if is_last {
                size.min(payload.len())
            } else {
                payload.len()
            };
            list.push(Text::from_slice(alloc, &payload[..kept])?)?;
        }
    }
    Ok(list)
}

/// The probe of these rows of the first reply and this second reply.
fn probe(alloc: Global, rows: &[&[u8]], second: &[&[&[u8]]]) -> Result<Probe, Fail> {
    let first = list_of(alloc, &[FIRST, rows, &[EOF]], 5)?;
    let second = list_of(alloc, second, 64)?;
    Ok(read_probe(alloc, &first, &second, 0)?)
}

/// Rows of the first reply, and the id and position that they tell, if any.
const IDENTITIES: [(&[&[u8]], Option<(u32, u64)>); 19] = [
    (&[FIRST_ROW], Some((3, 9))),
    (&[b"\x013\x0b0-1-9,1-1-7"], Some((3, 9))),
    (&[b"\x013\x0b1-1-7,0-1-9"], Some((3, 9))),
    (&[b"\x013\x051-1-7"], Some((3, 0))),
    (&[b"\x013\x00"], Some((3, 0))),
    (&[b"\x0a4294967295\x00"], Some((4_294_967_295, 0))),
    (&[b"\x0a4294967296\x00"], None),
    (&[b"\x1799999999999999999999999\x00"], None),
    (&[b"\x02+3\x00"], None),
    (&[b"\x023 \x00"], None),
    (&[b"\x00\x00"], None),
    (&[b"\xfb\x050-1-9"], None),
    (&[b"\x013\xfb"], None),
    (&[b"\x013\x030-1"], None),
    (&[b"\x013\x180-1-18446744073709551616"], None),
    (&[b"\x013"], None),
    (&[b"\x013\x050-1-9\x00"], None),
    (&[FIRST_ROW, FIRST_ROW], None),
    (&[], None),
];

#[test]
fn identities(rt: HostRuntime) -> Result<(), Fail> {
    for (rows, identity) in IDENTITIES {
        let wanted = match identity {
            Some((server_id, position)) => Probe::Found {
                server_id,
                position,
                source: None,
            },
            None => Probe::Down,
        };
        assert_eq!(rt; probe(rt.alloc(), rows, &[&[OK]])?, wanted);
    }
    Ok(())
}

/// Rows of the second reply, and the source that they tell: `io`, `sql` and the id. None is a server that is down.
const SOURCES: [(&[&[u8]], Option<(bool, bool, u32)>); 11] = [
    (&[SECOND_ROW], Some((true, true, 1))),
    (&[b"\x0aConnecting\x03Yes\x011"], Some((true, true, 1))),
    (&[b"\x09Preparing\x02No\x011"], Some((false, false, 1))),
    (&[b"\x02No\x0aConnecting\x011"], Some((false, false, 1))),
    (&[b"\x03yes\x04Yes \x011"], Some((false, false, 1))),
    (&[b"\xfb\xfb\x010"], Some((false, false, 0))),
    (&[SECOND_ROW, b"\x02No\x02No\x012"], Some((true, true, 1))),
    (&[b"\x03Yes\x03Yes\xfb"], None),
    (&[b"\x03Yes\x03Yes\x0a4294967296"], None),
    (&[b"\x03Yes\x03Yes\x01x"], None),
    (&[b"\x03Yes\x03Yes"], None),
];

#[test]
fn sources(rt: HostRuntime) -> Result<(), Fail> {
    for (rows, source) in SOURCES {
        let wanted = match source {
            Some((io, sql, primary_id)) => Probe::Found {
                server_id: 3,
                position: 9,
                source: Some(Source {
                    io,
                    sql,
                    primary_id,
                }),
            },
            None => Probe::Down,
        };
        assert_eq!(rt;
            probe(rt.alloc(), &[FIRST_ROW], &[SECOND, rows, &[EOF]])?,
            wanted
        );
    }
    Ok(())
}

/// Second replies, and whether a server is found without a source.
const OTHERS: [(&str, &[&[u8]], bool); 8] = [
    ("an OK", &[OK], true),
    ("no rows", &[b"\x03", IO, SQL, MASTER, EOF, EOF], true),
    ("other columns, but no rows", &[b"\x01", IO, EOF, EOF], true),
    ("nothing", &[], false),
    ("an ERR", &[ERR], false),
    (
        "an OK with more to come",
        &[b"\x00\x00\x00\x0a\x00\x00\x00"],
        false,
    ),
    ("two OKs", &[OK, OK], false),
    (
        "a column too few",
        &[b"\x02", IO, SQL, EOF, b"\x03Yes\x03Yes", EOF],
        false,
    ),
];

#[test]
fn other_second_replies(rt: HostRuntime) -> Result<(), Fail> {
    let found = Probe::Found {
        server_id: 3,
        position: 9,
        source: None,
    };
    for (why, second, is_found) in OTHERS {
        let wanted = if is_found { found } else { Probe::Down };
        assert!(rt;
            probe(rt.alloc(), &[FIRST_ROW], &[second])? == wanted,
            "{why}"
        );
    }
    Ok(())
}

/// The columns in another order, and one of them twice: the first counts.
#[test]
fn columns_by_name(rt: HostRuntime) -> Result<(), Fail> {
    let second: &[&[u8]] = &[
        b"\x04",
        MASTER,
        IO,
        MASTER,
        SQL,
        EOF,
        b"\x017\x03Yes\x018\x02No",
        EOF,
    ];
    let wanted = Probe::Found {
        server_id: 3,
        position: 9,
        source: Some(Source {
            io: true,
            sql: false,
            primary_id: 7,
        }),
    };
    assert_eq!(rt; probe(rt.alloc(), &[FIRST_ROW], &[second])?, wanted);
    Ok(())
}

/// A first reply that breaks off at any byte, and one of another kind.
#[test]
fn first_replies_that_break_off(rt: HostRuntime) -> Result<(), Fail> {
    let alloc = rt.alloc();
    let second = list_of(alloc, &[&[OK]], 7)?;
    let first: &[&[u8]] = &[FIRST[0], FIRST[1], FIRST[2], EOF, FIRST_ROW, EOF];
    for count in 0..first.len() {
        for size in 0..first[count].len() {
            let cut = list_of(alloc, &[&first[..count + 1]], size)?;
            assert!(rt; read_probe(alloc, &cut, &second, 0)? == Probe::Down);
        }
    }
    for other in [OK, ERR] {
        let reply = list_of(alloc, &[&[other]], 64)?;
        assert!(rt; read_probe(alloc, &reply, &second, 0)? == Probe::Down);
    }
    Ok(())
}

/// A second reply that breaks off at any byte.
#[test]
fn second_replies_that_break_off(rt: HostRuntime) -> Result<(), Fail> {
    let alloc = rt.alloc();
    let first = list_of(alloc, &[FIRST, &[FIRST_ROW, EOF]], 5)?;
    let second: &[&[u8]] = &[b"\x03", IO, SQL, MASTER, EOF, SECOND_ROW, EOF];
    for count in 0..second.len() {
        for size in 0..second[count].len() {
            let cut = list_of(alloc, &[&second[..count + 1]], size)?;
            assert!(rt; read_probe(alloc, &first, &cut, 0)? == Probe::Down);
        }
    }
    Ok(())
}
