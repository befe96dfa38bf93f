//! OKs that name GTIDs, and their form for clients.

use crate::{gtid_of, strip};
use rws_gtid::Gtid;
use rws_msgs::OkMsg;
use rws_wire::Text;
use std::alloc::{AllocError, Global};
use std::test::Fail;

/// An OK of one changed row that names the GTID 0-1-7.
const NAMED: &[u8] = b"\x00\x01\x00\x02\x40\x00\x00\x00\x12\x00\x10\x09last_gtid\x050-1-7";

/// A schema, which is an entry of another type, and then three GTIDs and a variable of another name.
const STATE: &[u8] =
    b"\x01\x02\x01t\x00\x20\x09last_gtid\x050-1-7\x09last_gtid\x050-1-8\x00\x14\x09last_gtid\x051-1-9\x01a\x01b";

/// Where the second entry of `STATE` ends, which names GTIDs of domain 0. Only the third names one of domain 1.
const SECOND_ENDS: usize = 38;

/// An OK with this state.
fn ok_with(alloc: Global, state: &[u8]) -> Result<OkMsg, AllocError> {
    Ok(OkMsg {
        affected: 0,
        insert_id: 0,
        status: 0x4002,
        warnings: 0,
        info: Text::empty(alloc),
        state: Text::from_slice(alloc, state)?,
    })
}

/// The GTID, and the OK for a client.
#[test]
fn named_gtid(rt: HostRuntime) -> Result<(), Fail> {
    let alloc = rt.alloc();
    let ok = OkMsg::decode(alloc, NAMED, true)?;
    assert_eq!(rt;
        gtid_of(&ok, 0),
        Some(Gtid {
            domain: 0,
            server: 1,
            sequence: 7
        })
    );
    assert_eq!(rt; gtid_of(&ok, 1), None);
    let mut out = Vec::new(alloc);
    strip(alloc, &ok)?.encode(false, &mut out)?;
    assert_eq!(rt; out.as_slice(), b"\x00\x01\x00\x02\x00\x00\x00".as_slice());
    Ok(())
}

/// The last GTID counts, in a state that is whole.
#[test]
fn several_entries(rt: HostRuntime) -> Result<(), Fail> {
    let alloc = rt.alloc();
    let ok = ok_with(alloc, STATE)?;
    assert_eq!(rt;
        gtid_of(&ok, 0),
        Some(Gtid {
            domain: 0,
            server: 1,
            sequence: 8
        })
    );
    assert_eq!(rt;
        gtid_of(&ok, 1),
        Some(Gtid {
            domain: 1,
            server: 1,
            sequence: 9
        })
    );
    assert_eq!(rt; gtid_of(&ok_with(alloc, b"\x00\x02\xfba")?, 0), None);
    for end in 0..STATE.len() {
        let cut = ok_with(alloc, &STATE[..end])?;
        assert_eq!(rt; gtid_of(&cut, 0).is_some(), end == SECOND_ENDS);
        assert!(rt; gtid_of(&cut, 1).is_none());
    }
    Ok(())
}

/// OKs of a MariaDB 10.11 server, with the sequence of the GTID that each names: of an UPDATE, CREATE PROCEDURE, SET
/// NAMES, SET autocommit, USE and a statement inside of a transaction.
const CAPTURED: [(&[u8], Option<u64>); 6] = [
    (
        b"\x00\x01\x00\x02@\x00\x00(Rows matched: 1  Changed: 1  Warnings: 0\x12\x00\x10\x09last_gtid\x050-1-4",
        Some(4),
    ),
    (
        b"\x00\x00\x00\x02@\x00\x00\x00\x12\x00\x10\x09last_gtid\x050-1-7",
        Some(7),
    ),
    (
        b"\x00\x00\x00\x02@\x00\x00\x00b\x00!\x18character_set_connection\x07utf8mb4\x00\x1d\x14character_set_client\x07utf8mb4\
        \x00\x1e\x15character_set_results\x07utf8mb4",
        None,
    ),
    (
        b"\x00\x00\x00\x00@\x00\x00\x00\x11\x00\x0f\x0aautocommit\x03OFF",
        None,
    ),
    (b"\x00\x00\x00\x02@\x00\x00\x00\x07\x01\x05\x04test", None),
    (b"\x00\x01\x00\x03\x00\x00\x00", None),
];

/// Each of the captured ones.
#[test]
fn oks_of_a_server(rt: HostRuntime) -> Result<(), Fail> {
    for (payload, sequence) in CAPTURED {
        let ok = OkMsg::decode(rt.alloc(), payload, true)?;
        assert_eq!(rt; gtid_of(&ok, 0).map(|gtid| gtid.sequence), sequence);
    }
    Ok(())
}
