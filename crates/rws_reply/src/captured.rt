//! Replies as MariaDB 10.11.19 sent them, payload by payload, to a client with CLIENT_PROTOCOL_41, CLIENT_SESSION_TRACK,
//! CLIENT_MULTI_RESULTS and CLIENT_PS_MULTI_RESULTS and without CLIENT_DEPRECATE_EOF.

use crate::{BadReply, Kind, Outcome, Progress, ReplyTracker, Role};

/// To `select id, v, a from t where ..`, whose last column is NULL.
const ROWS: &[&[u8]] = &[
    b"\x03",
    b"\x03def\x04test\x01t\x01t\x02id\x02id\x0c?\x00\x0a\x00\x00\x00\x03#P\x00\x00\x00",
    b"\x03def\x04test\x01t\x01t\x01v\x01v\x0c?\x00\x0a\x00\x00\x00\x03!\x10\x00\x00\x00",
    b"\x03def\x04test\x01t\x01t\x01a\x01a\x0c-\x00\x00\x01\x00\x00\xfd\x00\x00\x00\x00\x00",
    b"\xfe\x00\x00\x22\x00",
    b"\x013\x0230\xfb",
    b"\xfe\x00\x00\x22\x00",
];

/// To `call p()`, a procedure of two selects.
const CALL: &[&[u8]] = &[
    b"\x01",
    b"\x03def\x00\x00\x00\x011\x00\x0c?\x00\x01\x00\x00\x00\x03\x81\x00\x00\x00\x00",
    b"\xfe\x00\x00\x0a\x00",
    b"\x011",
    b"\xfe\x00\x00\x0a\x00",
    b"\x01",
    b"\x03def\x00\x00\x00\x012\x00\x0c?\x00\x01\x00\x00\x00\x03\x81\x00\x00\x00\x00",
    b"\xfe\x00\x00\x0a\x00",
    b"\x012",
    b"\xfe\x00\x00\x0a\x00",
    b"\x00\x00\x00\x02\x00\x00\x00",
];

/// To an INSERT with RETURNING: an EOF that shows a changed state.
const RETURNING: &[&[u8]] = &[
    b"\x01",
    b"\x03def\x04test\x01t\x01t\x02id\x02id\x0c?\x00\x0a\x00\x00\x00\x03#P\x00\x00\x00",
    b"\xfe\x00\x00\x02\x00",
    b"\x03101",
    b"\xfe\x00\x00\x02\x40",
];

/// To an UPDATE: an OK with an info.
const UPDATED: &[&[u8]] = &[
    b"\x00\x01\x00\x02\x00\x00\x00(Rows matched: 1  Changed: 1  Warnings: 0",
];

/// To a DELETE of a session that tracks its GTID: an OK with a state.
const DELETED: &[&[u8]] = &[b"\x00\x01\x00\x02\x40\x00\x00\x00\x13\x00\x11\x09last_gtid\x060-1-13"];

/// To `select f(id) from t`, a function that signals at the third row.
const CUT: &[&[u8]] = &[
    b"\x01",
    b"\x03def\x00\x00\x00\x05f(id)\x05f(id)\x0c?\x00\x0b\x00\x00\x00\x03\x00\x00\x00\x00\x00",
    b"\xfe\x00\x00\x22\x00",
    b"\x011",
    b"\x012",
    b"\xffl\x06#45000too big",
];

/// To `call e()`, a procedure of a select and a signal.
const CALL_REFUSED: &[&[u8]] = &[
    b"\x01",
    b"\x03def\x00\x00\x00\x01a\x00\x0c?\x00\x01\x00\x00\x00\x03\x81\x00\x00\x00\x00",
    b"\xfe\x00\x00\x0a\x00",
    b"\x011",
    b"\xfe\x00\x00\x0a\x00",
    b"\xffl\x06#45000stop",
];

/// To COM_STMT_PREPARE of a select with two parameters.
const PREPARED: &[&[u8]] = &[
    b"\x00\x01\x00\x00\x00\x01\x00\x02\x00\x00\x00\x00",
    b"\x03def\x00\x00\x00\x01?\x00\x0c?\x00\x00\x00\x00\x00\x06\x80\x00\x00\x00\x00",
    b"\x03def\x00\x00\x00\x01?\x00\x0c?\x00\x00\x00\x00\x00\x06\x80\x00\x00\x00\x00",
    b"\xfe\x00\x00\x02\x00",
    b"\x03def\x04test\x01t\x01t\x01v\x01v\x0c?\x00\x0a\x00\x00\x00\x03!\x10\x00\x00\x00",
    b"\xfe\x00\x00\x02\x00",
];

/// To its execution: the row is binary and begins with 0x00.
const EXECUTED: &[&[u8]] = &[
    b"\x01",
    b"\x03def\x04test\x01t\x01t\x01v\x01v\x0c?\x00\x0a\x00\x00\x00\x03!\x10\x00\x00\x00",
    b"\xfe\x00\x00\x02\x00",
    b"\x00\x00\x0a\x00\x00\x00",
    b"\xfe\x00\x00\x02\x00",
];

/// To COM_STMT_EXECUTE of `call o(?)`, whose parameter is OUT: a result with SERVER_PS_OUT_PARAMS, and an OK.
const CALL_OUT: &[&[u8]] = &[
    b"\x01",
    b"\x03def\x04test\x01o\x01o\x01x\x01x\x0c?\x00\x0b\x00\x00\x00\x03\x00\x00\x00\x00\x00",
    b"\xfe\x00\x00\x0a\x10",
    b"\x00\x00*\x00\x00\x00",
    b"\xfe\x00\x00\x0a\x10",
    b"\x00\x00\x00\x02\x00\x00\x00",
];

/// To COM_FIELD_LIST: definitions with default values behind their texts.
const FIELDS: &[&[u8]] = &[
    b"\x03def\x04test\x01t\x01t\x02id\x02id\x0c?\x00\x0a\x00\x00\x00\x03#P\x00\x00\x00\x010",
    b"\x03def\x04test\x01t\x01t\x01v\x01v\x0c?\x00\x0a\x00\x00\x00\x03!\x10\x00\x00\x00\x010",
    b"\x03def\x04test\x01t\x01t\x01a\x01a\x0c-\x00\x00\x01\x00\x00\xfd\x00\x00\x00\x00\x00\xfb",
    b"\xfe\x00\x00\x02\x00",
];

/// To COM_FIELD_LIST of a table that isn't there.
const NO_FIELDS: &[&[u8]] = &[b"\xffz\x04#42S02Table 'test.nosuch' doesn't exist"];

/// A reply, what its payloads are, and how it ends.
const REPLIES: [(Kind, &[&[u8]], &[Role], Outcome); 12] = [
    (
        Kind::Query,
        ROWS,
        &[
            Role::Count,
            Role::Definition,
            Role::Definition,
            Role::Definition,
            Role::Eof,
            Role::Row,
            Role::Eof,
        ],
        Outcome::Done { status: 0x0022 },
    ),
    (
        Kind::Query,
        CALL,
        &[
            Role::Count,
            Role::Definition,
            Role::Eof,
            Role::Row,
            Role::Eof,
            Role::Count,
            Role::Definition,
            Role::Eof,
            Role::Row,
            Role::Eof,
            Role::Ok,
        ],
        Outcome::Done { status: 0x0002 },
    ),
    (
        Kind::Query,
        RETURNING,
        &[
            Role::Count,
            Role::Definition,
            Role::Eof,
            Role::Row,
            Role::Eof,
        ],
        Outcome::Done { status: 0x4002 },
    ),
    (
        Kind::Query,
        UPDATED,
        &[Role::Ok],
        Outcome::Done { status: 0x0002 },
    ),
    (
        Kind::Query,
        DELETED,
        &[Role::Ok],
        Outcome::Done { status: 0x4002 },
    ),
    (
        Kind::Query,
        CUT,
        &[
            Role::Count,
            Role::Definition,
            Role::Eof,
            Role::Row,
            Role::Row,
            Role::Err,
        ],
        Outcome::Failed { code: 1644 },
    ),
    (
        Kind::Query,
        CALL_REFUSED,
        &[
            Role::Count,
            Role::Definition,
            Role::Eof,
            Role::Row,
            Role::Eof,
            Role::Err,
        ],
        Outcome::Failed { code: 1644 },
    ),
    (
        Kind::Prepare,
        PREPARED,
        &[
            Role::Prepared,
            Role::Definition,
            Role::Definition,
            Role::Eof,
            Role::Definition,
            Role::Eof,
        ],
        Outcome::Done { status: 0x0002 },
    ),
    (
        Kind::Query,
        EXECUTED,
        &[
            Role::Count,
            Role::Definition,
            Role::Eof,
            Role::Row,
            Role::Eof,
        ],
        Outcome::Done { status: 0x0002 },
    ),
    (
        Kind::Query,
        CALL_OUT,
        &[
            Role::Count,
            Role::Definition,
            Role::Eof,
            Role::Row,
            Role::Eof,
            Role::Ok,
        ],
        Outcome::Done { status: 0x0002 },
    ),
    (
        Kind::FieldList,
        FIELDS,
        &[
            Role::Definition,
            Role::Definition,
            Role::Definition,
            Role::Eof,
        ],
        Outcome::Done { status: 0x0002 },
    ),
    (
        Kind::FieldList,
        NO_FIELDS,
        &[Role::Err],
        Outcome::Failed { code: 1146 },
    ),
];

/// How many payloads the reply takes, and how it ends; `None` where one of them isn't what it should be.
fn taken(kind: Kind, payloads: &[&[u8]], roles: &[Role]) -> Option<(usize, Outcome)> {
    let mut tracker = ReplyTracker::new(kind);
    for (i, payload) in payloads.iter().enumerate() {
        if tracker.role(payload) != roles.get(i).copied() {
            return None;
        }
        match tracker.step(payload) {
            Ok(Progress::More) => {}
            Ok(Progress::Whole(outcome)) => return Some((i + 1, outcome)),
            Err(BadReply) => return None,
        }
    }
    None
}

#[test]
fn replies_end_where_servers_end_them(rt: HostRuntime) {
    for (kind, payloads, roles, outcome) in REPLIES {
        assert_eq!(rt;
            taken(kind, payloads, roles),
            Some((payloads.len(), outcome)),
            "{kind:?}"
        );
    }
}
