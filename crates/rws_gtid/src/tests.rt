//! GTIDs and lists that are parsed and printed, and texts that are neither.

use crate::{Gtid, GtidFault, parse, position_of, print, wait_text};
use std::test::Fail;

/// With the greatest sequence.
const GREATEST: Gtid = Gtid {
    domain: 0,
    server: 1,
    sequence: u64::MAX,
};

/// Printed and parsed, and the statement that waits for it.
#[test]
fn one_gtid(rt: HostRuntime) -> Result<(), Fail> {
    let alloc = rt.alloc();
    let text = print(alloc, GREATEST)?;
    assert_eq!(rt; text.as_slice(), b"0-1-18446744073709551615".as_slice());
    assert_eq!(rt; parse(text.as_slice()), Ok(GREATEST));
    let wait = wait_text(
        alloc,
        Gtid {
            domain: 0,
            server: 1,
            sequence: 7,
        },
        10,
    )?;
    assert_eq!(rt;
        wait.as_slice(),
        b"SELECT MASTER_GTID_WAIT('0-1-7', 10)".as_slice()
    );
    Ok(())
}

/// Each fault, at its place.
#[test]
fn faults(rt: HostRuntime) -> Result<(), Fail> {
    let cases = [
        (b"".as_slice(), GtidFault::NotAGtid { at: 0 }),
        (b"0-1".as_slice(), GtidFault::NotAGtid { at: 3 }),
        (b"0-1-".as_slice(), GtidFault::NotAGtid { at: 4 }),
        (b"0-1-7 ".as_slice(), GtidFault::NotAGtid { at: 5 }),
        (b"0-01-7".as_slice(), GtidFault::NotAGtid { at: 3 }),
        (b"0-+1-7".as_slice(), GtidFault::NotAGtid { at: 2 }),
        (b"4294967296-1-7".as_slice(), GtidFault::TooBig { at: 0 }),
        (
            b"0-1-18446744073709551616".as_slice(),
            GtidFault::TooBig { at: 4 },
        ),
        (b"0-4294967296x".as_slice(), GtidFault::TooBig { at: 2 }),
    ];
    for (text, fault) in cases {
        assert_eq!(rt; parse(text), Err(fault));
    }
    Ok(())
}

/// Lists, and faults behind a comma.
#[test]
fn positions(rt: HostRuntime) -> Result<(), Fail> {
    let first = Gtid {
        domain: 1,
        server: 2,
        sequence: 3,
    };
    assert_eq!(rt; position_of(b"", 0), Ok(None));
    assert_eq!(rt; position_of(b"0-1-2", 1), Ok(None));
    assert_eq!(rt; position_of(b"0-1-2,1-2-3,1-2-4", 1), Ok(Some(first)));
    assert_eq!(rt;
        position_of(b"1-2-3,", 1),
        Err(GtidFault::NotAGtid { at: 6 })
    );
    assert_eq!(rt;
        position_of(b"1-2-3, 0-1-2", 1),
        Err(GtidFault::NotAGtid { at: 6 })
    );
    Ok(())
}
