//! A table's links from their opening to their end, with ample memory.

use super::*;
use rws_causal::Causal;
use rws_commands::PreparedAs;
use rws_gtid::Gtid;
use rws_link::LinkStep;
use rws_native::Login;
use rws_reply::{Kind, Outcome, Progress};
use rws_wire::{CloseReason, PayloadList, Text};
use std::alloc::{AllocError, Global};
use std::test::Fail;

/// COM_QUERY `x`, and its packet.
const QUERY: &[u8] = b"\x03x";

const PACKET: &[u8] = b"\x02\0\0\0\x03x";

/// An OK as packet 1.
const OK: &[u8] = b"\x07\0\0\x01\0\0\0\x02\0\0\0";

/// Something is sent on a link: whether it was, and as the packet that it is to be.
fn send(alloc: Global, table: &mut LinkTable, link: u64, asked: Asked) -> Result<bool, AllocError> {
    let mut out = Vec::new(alloc);
    let went = table.send_one(link, asked, QUERY, Kind::Query, &mut out)?;
    Ok(went && out.as_slice() == PACKET)
}

/// An OK comes on a link: the link that it is said of, if it ends the reply, and what was asked there.
fn answer(table: &mut LinkTable, link: u64) -> Result<Option<(u64, bool)>, AllocError> {
    table.feed(link, OK)?;
    match table.read()? {
        None => Ok(None),
        Some(coming) => Ok(ended(&coming)),
    }
}

fn ended(coming: &Coming) -> Option<(u64, bool)> {
    match coming.said {
        LinkStep::Part {
            progress: Progress::Whole(Outcome::Done { .. }),
            ..
        } => Some((coming.link, coming.asked == Some(Asked::Preamble))),
        _ => None,
    }
}

/// An error as packet 1: number 1064, of the state 42000.
const ERROR: &[u8] = b"\x0a\0\0\x01\xff\x28\x04#42000x";

/// An error comes on a link: the servers that are banned then, where server 0 was.
fn fail(table: &mut LinkTable, link: u64) -> Result<Option<u8>, AllocError> {
    table.feed(link, ERROR)?;
    match table.read()? {
        None => Ok(None),
        Some(coming) => Ok(Some(coming.bans(1))),
    }
}

/// A link is opened behind the others, for nobody.
fn open(alloc: Global, table: &mut LinkTable, link: u64) -> Result<(), AllocError> {
    let login = LinkLogin::new(Login {
        user: Text::empty(alloc),
        stage1: None,
        database: None,
        charset: 0,
        flags: 0,
    });
    table.open(alloc, link, 1, &login)
}

#[test]
fn a_command_goes_on_a_ready_link(rt: HostRuntime) -> Result<(), Fail> {
    let mut table = LinkTable::begin(rt.alloc(), 3, 0)?;
    assert_eq!(rt;
        send(rt.alloc(), &mut table, 4, Asked::Command).ok(),
        Some(false)
    );
    assert_eq!(rt;
        send(rt.alloc(), &mut table, 3, Asked::Command).ok(),
        Some(true)
    );
    assert!(rt; table.awaits(3) && !table.awaits(4));
    assert_eq!(rt; answer(&mut table, 3).ok(), Some(Some((3, false))));
    assert!(rt; table.has(3) && !table.awaits(3));
    assert_eq!(rt; table.take_first(), Some(3));
    assert_eq!(rt; table.take_first(), None);
    Ok(())
}

#[test]
fn a_new_link_counts_as_ready(rt: HostRuntime) -> Result<(), Fail> {
    let mut table = LinkTable::begin(rt.alloc(), 3, 0)?;
    assert!(rt; open(rt.alloc(), &mut table, 5).is_ok());
    assert_eq!(rt;
        send(rt.alloc(), &mut table, 5, Asked::Preamble).ok(),
        Some(false)
    );
    assert!(rt; table.ready(5) && !table.ready(5));
    assert_eq!(rt;
        send(rt.alloc(), &mut table, 5, Asked::Command).ok(),
        Some(true)
    );
    assert_eq!(rt; answer(&mut table, 5).ok(), Some(Some((5, false))));
    table.remove(3);
    assert_eq!(rt; table.take_first(), Some(5));
    Ok(())
}

#[test]
fn an_entry_is_played_where_it_was_not_led(rt: HostRuntime) -> Result<(), Fail> {
    let mut table = LinkTable::begin(rt.alloc(), 3, 0)?;
    assert!(rt; open(rt.alloc(), &mut table, 5).is_ok() && table.ready(5));
    assert!(rt; table.lead(3, 6).is_ok());
    assert_eq!(rt; table.due(Some(3), Some(6)), due(3, DueKind::Command, 7));
    assert_eq!(rt; table.due(Some(5), Some(6)), due(5, DueKind::Entry, 0));
    assert_eq!(rt; send(rt.alloc(), &mut table, 5, ENTRY).ok(), Some(true));
    assert_eq!(rt; answer(&mut table, 5).ok(), Some(Some((5, false))));
    assert_eq!(rt; table.due(Some(5), Some(6)), due(5, DueKind::Command, 7));
    Ok(())
}

/// The entry of serial 6, which prepares no statement.
const ENTRY: Asked = Asked::Entry {
    serial: 6,
    statement: None,
};

fn due(link: u64, what: DueKind, entry: u64) -> Option<Due> {
    Some(Due { link, what, entry })
}

#[test]
fn a_server_that_differs_is_banned(rt: HostRuntime) -> Result<(), Fail> {
    let mut table = LinkTable::begin(rt.alloc(), 3, 2)?;
    assert_eq!(rt; send(rt.alloc(), &mut table, 3, ENTRY).ok(), Some(true));
    assert_eq!(rt; fail(&mut table, 3).ok(), Some(Some(5)));
    assert_eq!(rt;
        send(rt.alloc(), &mut table, 3, Asked::Command).ok(),
        Some(true)
    );
    assert_eq!(rt; fail(&mut table, 3).ok(), Some(Some(1)));
    Ok(())
}

#[test]
fn a_command_is_due_on_its_link(rt: HostRuntime) -> Result<(), Fail> {
    let table = LinkTable::begin(rt.alloc(), 3, 0)?;
    assert_eq!(rt;
        (table.due(None, None), table.due(Some(4), None)),
        (None, None)
    );
    assert_eq!(rt; table.due(Some(3), None), due(3, DueKind::Command, 0));
    assert_eq!(rt; (table.to_server(0), table.to_server(1)), (Some(3), None));
    let load = table.load(0);
    assert_eq!(rt; (load.pending, load.links), (0, 1));
    Ok(())
}

/// A result set of one column and one row in packets from 1 on: `0`, and `0-1-7`.
const REACHED: &[u8] =
    b"\x01\0\0\x01\x01\x17\0\0\x02\x03def\0\0\0\x01v\0\x0c?\0\x01\0\0\0\x03\x81\0\0\0\0\x05\0\0\x03\xfe\0\0\x02\0\x02\0\0\x04\x010\x05\0\0\x05\xfe\0\0\x02\0";

const AT_SEVEN: &[u8] =
    b"\x01\0\0\x01\x01\x17\0\0\x02\x03def\0\0\0\x01v\0\x0c?\0\x01\0\0\0\x03\x81\0\0\0\0\x05\0\0\x03\xfe\0\0\x02\0\x06\0\0\x04\x050-1-7\x05\0\0\x05\xfe\0\0\x02\0";

/// The commits that reads want.
const SEVENTH: Gtid = Gtid {
    domain: 0,
    server: 1,
    sequence: 7,
};

const EIGHTH: Gtid = Gtid {
    domain: 0,
    server: 1,
    sequence: 8,
};

/// What goes before a read, what answers it, and what comes next.
const CHECKS: [(Asked, &[u8], Causal); 5] = [
    (Asked::Wait, REACHED, Causal::Go),
    (Asked::Wait, ERROR, Causal::TryPrimary),
    (Asked::Wait, OK, Causal::TryPrimary),
    (Asked::Probe(SEVENTH), AT_SEVEN, Causal::Go),
    (
        Asked::Probe(EIGHTH),
        AT_SEVEN,
        Causal::Stale {
            wanted: 8,
            found: 7,
        },
    ),
];

/// It is sent on link 3 and answered: what comes next, once the answer is whole.
fn check(
    alloc: Global,
    table: &mut LinkTable,
    asked: Asked,
    answer: &[u8],
) -> Result<Option<Causal>, AllocError> {
    send(alloc, table, 3, asked)?;
    table.feed(3, answer)?;
    let mut checked = None;
    for _ in 0..5 {
        checked = checked.or(read_one(table)?);
    }
    Ok(checked)
}

fn read_one(table: &mut LinkTable) -> Result<Option<Causal>, AllocError> {
    match table.read()? {
        None => Ok(None),
        Some(coming) => Ok(coming.checked),
    }
}

#[test]
fn answers_before_a_read(rt: HostRuntime) -> Result<(), Fail> {
    let mut table = LinkTable::begin(rt.alloc(), 3, 0)?;
    for (asked, answer, next) in CHECKS {
        assert_eq!(rt;
            check(rt.alloc(), &mut table, asked, answer).ok(),
            Some(Some(next))
        );
    }
    Ok(())
}

/// COM_STMT_PREPARE `x` is answered: statement 9, of no columns and no parameters.
const PREPARED: &[u8] = b"\x0c\0\0\x01\0\x09\0\0\0\0\0\0\0\0\0\0";

/// An entry that prepares a statement is played: the servers that are banned then, where it had so many parameters before.
fn prepare(
    alloc: Global,
    table: &mut LinkTable,
    parameters: u16,
) -> Result<Option<(u8, Option<u32>)>, AllocError> {
    let statement = Some(PreparedAs {
        number: 1,
        columns: 0,
        parameters,
    });
    let asked = Asked::Entry {
        serial: 0,
        statement,
    };
    let mut out = Vec::new(alloc);
    table.send_one(3, asked, b"\x16x", Kind::Prepare, &mut out)?;
    table.feed(3, PREPARED)?;
    match table.read()? {
        None => Ok(None),
        Some(coming) => Ok(Some((coming.bans(1), coming.named.map(|ok| ok.id)))),
    }
}

#[test]
fn a_server_that_prepares_otherwise_is_banned(rt: HostRuntime) -> Result<(), Fail> {
    let mut table = LinkTable::begin(rt.alloc(), 3, 2)?;
    assert_eq!(rt;
        prepare(rt.alloc(), &mut table, 0).ok(),
        Some(Some((1, Some(9))))
    );
    assert_eq!(rt;
        prepare(rt.alloc(), &mut table, 2).ok(),
        Some(Some((5, Some(9))))
    );
    Ok(())
}

/// A piece of long data and an execute go on a link, and a statement is closed on it behind them: what went out.
fn execute(alloc: Global, table: &mut LinkTable) -> Result<PayloadList, AllocError> {
    let mut payloads = PayloadList::new(alloc);
    payloads.push(Text::from_slice(alloc, b"\x18l")?)?;
    payloads.push(Text::from_slice(alloc, b"\x17e")?)?;
    let mut out = PayloadList::new(alloc);
    table.send_silent(3, b"\x19c", &mut out)?;
    table.send(3, Asked::Command, &payloads, Kind::Query, &mut out)?;
    table.send_silent(3, b"\x19c", &mut out)?;
    Ok(out)
}

#[test]
fn long_data_goes_before_its_execute(rt: HostRuntime) -> Result<(), Fail> {
    let mut table = LinkTable::begin(rt.alloc(), 3, 2)?;
    let out = execute(rt.alloc(), &mut table)?;
    let wanted: [&[u8]; 3] = [b"\x02\0\0\0\x19c", b"\x02\0\0\0\x18l", b"\x02\0\0\0\x17e"];
    assert_eq!(rt; out.len(), wanted.len());
    for at in 0..wanted.len() {
        assert_eq!(rt; out.as_slice()[at].as_slice(), wanted[at]);
    }
    assert!(rt; table.awaits(3));
    Ok(())
}

/// A read-only transaction is open on the link.
const ENDED: CloseReason = CloseReason::NotReplayable {
    bytes: 7,
    tainted: false,
    read_only: true,
    off: true,
};

#[test]
fn the_first_reason_closes(rt: HostRuntime) -> Result<(), Fail> {
    let rows = [
        (
            (true, true, false, true, true),
            Some(CloseReason::ResultCut),
        ),
        (
            (false, true, false, true, true),
            Some(CloseReason::OutcomeUnknown),
        ),
        (
            (false, true, true, true, true),
            Some(CloseReason::SessionState),
        ),
        ((false, true, true, false, true), Some(ENDED)),
        ((false, true, true, false, false), None),
    ];
    for ((told, sent, again, kept, opened), wanted) in rows {
        assert_eq!(rt; closing(told, sent, again, kept, opened, ENDED), wanted);
    }
    Ok(())
}
