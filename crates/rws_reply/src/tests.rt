//! Replies as servers send them, and what is none.

use crate::{BadReply, Kind, Outcome, Progress, ReplyTracker, Role, client_payload};
use std::test::Fail;

const OK: &[u8] = b"\x00\x00\x00\x02\x00\x00\x00";

const OK_MORE: &[u8] = b"\x00\x00\x00\x0a\x00\x00\x00";
/// An OK that names the GTID 0-1-7.
const OK_GTID: &[u8] = b"\x00\x01\x00\x02\x40\x00\x00\x00\x12\x00\x10\x09last_gtid\x050-1-7";

const ERR: &[u8] = b"\xff\x51\x04#HY000no";

const ONE: &[u8] = b"\x01";

const DEFINITION: &[u8] =
    b"\x03def\x00\x00\x00\x01a\x00\x0c\x2d\x00\x0a\x00\x00\x00\xfd\x00\x00\x00\x00\x00";

const EOF: &[u8] = b"\xfe\x00\x00\x02\x00";

const EOF_MORE: &[u8] = b"\xfe\x00\x00\x0a\x00";

const ROW: &[u8] = b"\x015";
/// A row whose first column has 0xFE before its length.
const LONG_ROW: &[u8] = b"\xfe\x00\x00\x00\x01\x00\x00\x00\x00";
/// A statement with one column and one parameter, and one with neither.
const PREPARED: &[u8] = b"\x00\x07\x00\x00\x00\x01\x00\x01\x00\x00\x00\x00";

const PREPARED_BARE: &[u8] = b"\x00\x07\x00\x00\x00\x00\x00\x00\x00\x00\x00\x00";

const DONE: Result<Progress, BadReply> = Ok(Progress::Whole(Outcome::Done { status: 2 }));

const FAILED: Result<Progress, BadReply> = Ok(Progress::Whole(Outcome::Failed { code: 1105 }));

/// Payloads, and what is said of the last.
const LISTS: [(Kind, &[&[u8]], Result<Progress, BadReply>); 20] = [
    (Kind::Simple, &[OK], DONE),
    (
        Kind::Query,
        &[OK_GTID],
        Ok(Progress::Whole(Outcome::Done { status: 0x4002 })),
    ),
    (
        Kind::Query,
        &[ONE, DEFINITION, EOF, ROW, LONG_ROW, EOF],
        DONE,
    ),
    (Kind::Query, &[ONE, DEFINITION, EOF, ROW, ERR], FAILED),
    (
        Kind::Query,
        &[OK_MORE, ONE, DEFINITION, EOF, EOF_MORE, OK],
        DONE,
    ),
    (
        Kind::Prepare,
        &[PREPARED, DEFINITION, EOF, DEFINITION, EOF],
        DONE,
    ),
    (Kind::Prepare, &[PREPARED_BARE], DONE),
    (Kind::FieldList, &[DEFINITION, DEFINITION, EOF], DONE),
    (Kind::FieldList, &[ERR], FAILED),
    (
        Kind::Query,
        &[ONE, DEFINITION, EOF, LONG_ROW],
        Ok(Progress::More),
    ),
    (Kind::Query, &[ONE, DEFINITION, EOF], Ok(Progress::More)),
    (Kind::Query, &[OK_MORE], Ok(Progress::More)),
    (Kind::Query, &[b"\xfb"], Err(BadReply)),
    (Kind::Query, &[EOF], Err(BadReply)),
    (Kind::Query, &[b""], Err(BadReply)),
    (Kind::Query, &[ONE, DEFINITION, DEFINITION], Err(BadReply)),
    (Kind::Query, &[b"\x01\x00"], Err(BadReply)),
    (Kind::Simple, &[ONE], Err(BadReply)),
    (Kind::Simple, &[OK, OK], Err(BadReply)),
    (Kind::FieldList, &[DEFINITION, ERR], Err(BadReply)),
];

/// What is said of the last payload.
fn last_of(kind: Kind, payloads: &[&[u8]]) -> Result<Progress, BadReply> {
    let mut tracker = ReplyTracker::new(kind);
    let mut last = Ok(Progress::More);
    for payload in payloads {
        last = tracker.step(payload);
    }
    last
}

#[test]
fn replies_beginnings_and_neither(rt: HostRuntime) {
    for (kind, payloads, last) in LISTS {
        assert_eq!(rt; last_of(kind, payloads), last);
    }
}

/// A payload in its role, and its form for a client that knows the statement by the handle 42.
const FORMS: [(Role, &[u8], &[u8]); 6] = [
    (Role::Ok, OK_GTID, b"\x00\x01\x00\x02\x00\x00\x00"),
    (Role::Ok, OK, OK),
    (
        Role::Prepared,
        PREPARED,
        b"\x00*\x00\x00\x00\x01\x00\x01\x00\x00\x00\x00",
    ),
    (Role::Row, OK_GTID, OK_GTID),
    (Role::Eof, b"\xfe\x00\x00\x02\x40", b"\xfe\x00\x00\x02\x40"),
    (Role::Err, ERR, ERR),
];

#[test]
fn forms_for_clients(rt: HostRuntime) -> Result<(), Fail> {
    for (role, payload, expected) in FORMS {
        match client_payload(rt.alloc(), role, payload, 42)? {
            Some(form) => assert_eq!(rt; form.as_slice(), expected),
            None => assert_eq!(rt; payload, expected),
        }
    }
    Ok(())
}
