//! What no clause says: commands as clients send them, from the payload to what a server is asked, with ample memory.

use super::*;
use rws_class::Class;
use rws_msgs::PrepareOk;
use rws_reply::Outcome;
use rws_wire::{PayloadList, Text};
use std::alloc::{AllocError, Global};
use std::test::Fail;

/// No transaction is open; the history may have two entries, and a statement five bytes of long data.
const NOW: Situation = Situation {
    in_transaction: false,
    read_only: false,
    history_limit: 2,
    room: 5,
};

/// The same in a transaction.
const WITHIN: Situation = Situation {
    in_transaction: true,
    read_only: false,
    history_limit: 2,
    room: 5,
};

/// The same in one that only reads, with a history of one entry at most.
const READING: Situation = Situation {
    in_transaction: true,
    read_only: true,
    history_limit: 1,
    room: 5,
};

/// COM_STMT_PREPARE of a text with one parameter.
const PREPARE: &[u8] = b"\x16select ?";

/// COM_STMT_EXECUTE of the client's statement 1, whose parameter is a text: `a` with its type, and `b` without.
const WITH_TYPE: &[u8] = b"\x17\x01\0\0\0\0\x01\0\0\0\0\x01\xFD\0\x01a";

const WITHOUT_TYPE: &[u8] = b"\x17\x01\0\0\0\0\x01\0\0\0\0\0\x01b";

/// The first one, of the last statement that was prepared.
const OF_THE_LAST: &[u8] = b"\x17\xFF\xFF\xFF\xFF\0\x01\0\0\0\0\x01\xFD\0\x01a";

/// COM_STMT_CLOSE and COM_STMT_RESET of the client's statement 1.
const CLOSE: &[u8] = b"\x19\x01\0\0\0";

const RESET: &[u8] = b"\x1A\x01\0\0\0";

/// What a command is taken for: the error by its number, and what goes to a server by its class and the client's bytes.
#[derive(Clone, Copy, Debug, PartialEq, Eq)]
enum Told {
    Leaves,
    Own,
    Refused(u16),
    Silent,
    TooMuch(u64),
    Serves(Class, u64),
}

/// The number of an error, behind the first byte of its packet.
fn number_of(alloc: Global, error: ProxyError) -> Result<u16, AllocError> {
    match error.payload(alloc)?.as_slice() {
        [0xFF, low, high, b'#', ..] => Ok(u16::from_le_bytes([*low, *high])),
        _ => Ok(0),
    }
}

/// A command comes: what it is taken for.
fn take(
    alloc: Global,
    statements: &mut Statements,
    payload: &[u8],
    now: Situation,
) -> Result<Told, AllocError> {
    let payload = Text::from_slice(alloc, payload)?;
    Ok(match statements.take(payload, 1, now)? {
        Judged::Leaves => Told::Leaves,
        Judged::IsOwn => Told::Own,
        Judged::IsRefused(error) => Told::Refused(number_of(alloc, error)?),
        Judged::IsSilent => Told::Silent,
        Judged::HasTooMuch(bytes) => Told::TooMuch(bytes),
        Judged::Serves(command) => Told::Serves(command.class(), command.bytes()),
    })
}

/// A command comes, and its reply on link 2 ends so: whether it went to a server.
fn answer(
    alloc: Global,
    statements: &mut Statements,
    payload: &[u8],
    ending: Ending,
    serial: Option<u64>,
) -> Result<bool, AllocError> {
    let payload = Text::from_slice(alloc, payload)?;
    match statements.take(payload, 1, NOW)? {
        Judged::Serves(command) => {
            statements.answered(2, command, ending.outcome, ending.named, serial)?;
            Ok(true)
        }
        _ => Ok(false),
    }
}

/// An OK that tells of no statement.
const OK: Ending = Ending {
    outcome: Outcome::Done { status: 2 },
    named: None,
};

/// The text isn't understood.
const FAILED: Ending = Ending {
    outcome: Outcome::Failed { code: 1064 },
    named: None,
};

/// A statement was prepared: it has this id, one column and so many parameters.
fn prepared(id: u32, parameters: u16) -> Option<PrepareOk> {
    Some(PrepareOk {
        id,
        columns: 1,
        parameters,
        warnings: 0,
    })
}

/// The statement's id on link 2.
const ID: u32 = 0x0A0B_0C0D;

/// `select ?` is the client's statement 1 and stands in the history as entry 0.
fn one_statement(alloc: Global) -> Result<Statements, AllocError> {
    let mut statements = Statements::new(alloc);
    let ending = Ending {
        outcome: Outcome::Done { status: 2 },
        named: prepared(ID, 1),
    };
    answer(alloc, &mut statements, PREPARE, ending, Some(0))?;
    Ok(statements)
}

/// Whether the server of a link is asked this, in order, by an execute.
fn asks(
    alloc: Global,
    statements: &mut Statements,
    link: u64,
    execute: &[u8],
    wanted: &[&[u8]],
) -> Result<bool, AllocError> {
    let payload = Text::from_slice(alloc, execute)?;
    match statements.take(payload, 1, NOW)? {
        Judged::Serves(command) => {
            let id = statements.id_for(link, command.command());
            is_asked(alloc, id, command.command(), wanted)
        }
        _ => Ok(false),
    }
}

fn is_asked(
    alloc: Global,
    id: Option<u32>,
    command: &Command,
    wanted: &[&[u8]],
) -> Result<bool, AllocError> {
    let mut out = PayloadList::new(alloc);
    put_asked(alloc, id, command, &mut out)?;
    let asked = out.as_slice().iter().map(|payload| payload.as_slice());
    Ok(asked.eq(wanted.iter().copied()))
}

#[test]
fn commands_are_told_apart(rt: HostRuntime) -> Result<(), Fail> {
    let mut statements = one_statement(rt.alloc())?;
    let rows: [(&[u8], Told); 9] = [
        (b"\x01", Told::Leaves),
        (b"\x0E", Told::Own),
        (b"\x02shop", Told::Serves(Class::Session, 5)),
        (b"\x03SELECT 1", Told::Serves(Class::Read, 9)),
        (b"\x03UPDATE t SET a = 1", Told::Serves(Class::Write, 19)),
        (b"\x04t\0%", Told::Serves(Class::PrimaryRead, 4)),
        (PREPARE, Told::Serves(Class::Session, 9)),
        (WITH_TYPE, Told::Serves(Class::Read, 16)),
        (CLOSE, Told::Silent),
    ];
    for (payload, wanted) in rows {
        assert_eq!(rt;
            take(rt.alloc(), &mut statements, payload, NOW).ok(),
            Some(wanted)
        );
    }
    Ok(())
}

#[test]
fn refusals_have_numbers(rt: HostRuntime) -> Result<(), Fail> {
    let mut statements = one_statement(rt.alloc())?;
    let rows: [(&[u8], u16); 14] = [
        // no command, and COM_STATISTICS
        (b"", 1047),
        (b"\x09", 1047),
        // COM_SET_OPTION, COM_STMT_FETCH, COM_RESET_CONNECTION, and a setting that replication stands on
        (b"\x1B\x01\0", 1235),
        (b"\x1C\x01\0\0\0\x01\0\0\0", 1235),
        (b"\x1F", 1235),
        (b"\x03SET sql_log_bin = 0", 1235),
        // statements that were never prepared, and commands that end within the number
        (b"\x17\x02\0\0\0\0\x01\0\0\0\0\x01\xFD\0\x01a", 1243),
        (b"\x17\x01\0\0", 1243),
        (b"\x1A\x02\0\0\0", 1243),
        (b"\x1A\x01\0", 1243),
        // a cursor that is read only
        (b"\x17\x01\0\0\0\x01\x01\0\0\0\0\x01\xFD\0\x01a", 1235),
        // it ends within the types; whether they come is neither told by 0 nor by 1; they never came
        (b"\x17\x01\0\0\0\0\x01\0\0\0\0\x01\xFD", 1105),
        (b"\x17\x01\0\0\0\0\x01\0\0\0\0\x02\xFD\0\x01a", 1105),
        (WITHOUT_TYPE, 1105),
    ];
    for (payload, number) in rows {
        assert_eq!(rt;
            take(rt.alloc(), &mut statements, payload, NOW).ok(),
            Some(Told::Refused(number))
        );
    }
    Ok(())
}

#[test]
fn a_read_only_transaction_takes_reads(rt: HostRuntime) -> Result<(), Fail> {
    let mut statements = one_statement(rt.alloc())?;
    let rows: [(&[u8], Told); 6] = [
        (b"\x03SELECT 1", Told::Serves(Class::Read, 9)),
        (b"\x03COMMIT", Told::Serves(Class::Commit, 7)),
        (b"\x03UPDATE t SET a = 1", Told::Refused(1235)),
        // what has no room in the history, behind which no statement is the last one
        (OF_THE_LAST, Told::Serves(Class::Read, 16)),
        (PREPARE, Told::Refused(1235)),
        (OF_THE_LAST, Told::Refused(1243)),
    ];
    for (payload, wanted) in rows {
        assert_eq!(rt;
            take(rt.alloc(), &mut statements, payload, READING).ok(),
            Some(wanted)
        );
    }
    Ok(())
}

/// A command comes: whether the session stays on its link, whether the other links are to play it, and the packet that its reply
/// begins with.
fn stays(
    alloc: Global,
    statements: &mut Statements,
    payload: &[u8],
) -> Result<Option<(bool, bool, u8)>, AllocError> {
    let payload = Text::from_slice(alloc, payload)?;
    Ok(match statements.take(payload, 1, NOW)? {
        Judged::Serves(command) => {
            let (keeps, sets) = (command.keeps(), command.is_session());
            Some((keeps, sets, command.into_command().number))
        }
        _ => None,
    })
}

#[test]
fn what_an_execute_sets_is_not_played(rt: HostRuntime) -> Result<(), Fail> {
    let mut statements = Statements::new(rt.alloc());
    let ending = Ending {
        outcome: Outcome::Done { status: 2 },
        named: prepared(ID, 1),
    };
    assert_eq!(rt;
        answer(
            rt.alloc(),
            &mut statements,
            b"\x16SET @a = ?",
            ending,
            Some(0)
        )
        .ok(),
        Some(true)
    );
    let rows: [(&[u8], (bool, bool, u8)); 3] = [
        (b"\x03SET @a = 1", (false, true, 1)),
        (b"\x03SELECT @a", (false, false, 1)),
        (WITH_TYPE, (true, false, 1)),
    ];
    for (payload, wanted) in rows {
        assert_eq!(rt;
            stays(rt.alloc(), &mut statements, payload).ok(),
            Some(Some(wanted))
        );
    }
    Ok(())
}

#[test]
fn executes_go_under_the_id_of_the_link(rt: HostRuntime) -> Result<(), Fail> {
    let mut statements = one_statement(rt.alloc())?;
    let rows: [(&[u8], &[u8]); 3] = [
        (
            WITH_TYPE,
            b"\x17\x0D\x0C\x0B\x0A\0\x01\0\0\0\0\x01\xFD\0\x01a",
        ),
        (
            WITHOUT_TYPE,
            b"\x17\x0D\x0C\x0B\x0A\0\x01\0\0\0\0\x01\xFD\0\x01b",
        ),
        (
            OF_THE_LAST,
            b"\x17\x0D\x0C\x0B\x0A\0\x01\0\0\0\0\x01\xFD\0\x01a",
        ),
    ];
    for (payload, wanted) in rows {
        assert_eq!(rt;
            asks(rt.alloc(), &mut statements, 2, payload, &[wanted]).ok(),
            Some(true)
        );
    }
    Ok(())
}

#[test]
fn the_last_statement_is_none_behind_a_failed_prepare(rt: HostRuntime) -> Result<(), Fail> {
    let mut statements = one_statement(rt.alloc())?;
    assert_eq!(rt;
        answer(rt.alloc(), &mut statements, PREPARE, FAILED, None).ok(),
        Some(true)
    );
    let rows = [
        (OF_THE_LAST, Told::Refused(1243)),
        (WITH_TYPE, Told::Serves(Class::Read, 16)),
    ];
    for (payload, wanted) in rows {
        assert_eq!(rt;
            take(rt.alloc(), &mut statements, payload, NOW).ok(),
            Some(wanted)
        );
    }
    Ok(())
}

/// Long data for the parameter of the client's statement 1: `ab`, `cde` and `f`. It fills the room before the last.
const LONG_DATA: [(&[u8], Told); 5] = [
    (b"\x18\x01\0\0\0\0\0ab", Told::Silent),
    (b"\x18\x01\0\0\0\0\0cde", Told::Silent),
    (b"\x18\x01\0\0\0\0\0f", Told::TooMuch(6)),
    (b"\x18\x02\0\0\0\0\0f", Told::Silent),
    (b"\x18\x01\0\0\0\0", Told::Silent),
];

/// An execute whose parameter came as long data.
const OF_LONG_DATA: &[u8] = b"\x17\x01\0\0\0\0\x01\0\0\0\0\x01\xFC\0";

#[test]
fn long_data_goes_before_its_execute(rt: HostRuntime) -> Result<(), Fail> {
    let mut statements = one_statement(rt.alloc())?;
    for (payload, wanted) in LONG_DATA {
        assert_eq!(rt;
            take(rt.alloc(), &mut statements, payload, NOW).ok(),
            Some(wanted)
        );
    }
    let wanted: [&[u8]; 3] = [
        b"\x18\x0D\x0C\x0B\x0A\0\0ab",
        b"\x18\x0D\x0C\x0B\x0A\0\0cde",
        b"\x17\x0D\x0C\x0B\x0A\0\x01\0\0\0\0\x01\xFC\0",
    ];
    assert_eq!(rt;
        asks(rt.alloc(), &mut statements, 2, OF_LONG_DATA, &wanted).ok(),
        Some(true)
    );
    assert_eq!(rt;
        asks(rt.alloc(), &mut statements, 2, OF_LONG_DATA, &wanted[2..]).ok(),
        Some(true)
    );
    Ok(())
}

#[test]
fn long_data_counts_and_a_reset_forgets_it(rt: HostRuntime) -> Result<(), Fail> {
    let mut statements = one_statement(rt.alloc())?;
    let rows: [(&[u8], Told); 5] = [
        (b"\x18\x01\0\0\0\0\0ab", Told::Silent),
        (OF_LONG_DATA, Told::Serves(Class::Read, 23)),
        (b"\x18\x01\0\0\0\0\0ab", Told::Silent),
        (RESET, Told::Own),
        (WITHOUT_TYPE, Told::Serves(Class::Read, 14)),
    ];
    for (payload, wanted) in rows {
        assert_eq!(rt;
            take(rt.alloc(), &mut statements, payload, NOW).ok(),
            Some(wanted)
        );
    }
    Ok(())
}

/// The serial of the last entry, and the next id that the server of link 2 is to close.
fn left(statements: &mut Statements) -> (Option<u64>, Option<u32>) {
    (statements.last_serial(), statements.take_stale(2))
}

#[test]
fn a_close_takes_the_statement_and_its_entry_out(rt: HostRuntime) -> Result<(), Fail> {
    let mut statements = one_statement(rt.alloc())?;
    assert_eq!(rt; left(&mut statements), (Some(0), None));
    let rows = [(CLOSE, Told::Silent), (WITH_TYPE, Told::Refused(1243))];
    for (payload, wanted) in rows {
        assert_eq!(rt;
            take(rt.alloc(), &mut statements, payload, NOW).ok(),
            Some(wanted)
        );
    }
    assert_eq!(rt; statements.take_stale(3), None);
    assert_eq!(rt; left(&mut statements), (None, Some(ID)));
    assert_eq!(rt; left(&mut statements), (None, None));
    assert_eq!(rt; statements.next_handle(), 1);
    Ok(())
}

#[test]
fn what_is_closed_in_a_transaction_leaves_at_its_end(rt: HostRuntime) -> Result<(), Fail> {
    let mut statements = one_statement(rt.alloc())?;
    let rows = [(CLOSE, Told::Silent), (WITH_TYPE, Told::Refused(1243))];
    for (payload, wanted) in rows {
        assert_eq!(rt;
            take(rt.alloc(), &mut statements, payload, WITHIN).ok(),
            Some(wanted)
        );
    }
    assert_eq!(rt; left(&mut statements), (Some(0), None));
    statements.sweep();
    assert_eq!(rt; left(&mut statements), (None, Some(ID)));
    assert_eq!(rt; left(&mut statements), (None, None));
    Ok(())
}

/// As what the client's statement 1 stands in the history.
const HOW: Option<PreparedAs> = Some(PreparedAs {
    number: 1,
    columns: 1,
    parameters: 1,
});

#[test]
fn each_link_has_its_own_id(rt: HostRuntime) -> Result<(), Fail> {
    let mut statements = one_statement(rt.alloc())?;
    assert!(rt; statements.played(5, 0, HOW, prepared(9, 1)).is_ok());
    let wanted: [&[u8]; 1] = [b"\x17\x09\0\0\0\0\x01\0\0\0\0\x01\xFD\0\x01a"];
    assert_eq!(rt;
        asks(rt.alloc(), &mut statements, 5, WITH_TYPE, &wanted).ok(),
        Some(true)
    );
    statements.drop_link(5);
    assert_eq!(rt;
        asks(rt.alloc(), &mut statements, 5, WITH_TYPE, &[]).ok(),
        Some(true)
    );
    Ok(())
}

#[test]
fn an_id_that_comes_too_late_is_closed(rt: HostRuntime) -> Result<(), Fail> {
    let mut statements = one_statement(rt.alloc())?;
    assert_eq!(rt;
        take(rt.alloc(), &mut statements, CLOSE, NOW).ok(),
        Some(Told::Silent)
    );
    assert!(rt; statements.played(5, 0, HOW, prepared(9, 1)).is_ok());
    assert_eq!(rt; statements.take_stale(5), Some(9));
    assert_eq!(rt; statements.take_stale(5), None);
    Ok(())
}

#[test]
fn other_numbers_of_parameters_differ(rt: HostRuntime) {
    for (named, wanted) in [
        (prepared(9, 1), false),
        (prepared(9, 2), true),
        (None, false),
    ] {
        assert_eq!(rt; is_otherwise(HOW, named), wanted);
    }
    assert!(rt; !is_otherwise(None, prepared(9, 1)));
}

/// The payload of the entry that is next from this serial on, and its serial, if that is so.
fn is_next(statements: &Statements, cursor: u64, serial: u64, payload: &[u8]) -> bool {
    match statements.unplayed(cursor) {
        Some(entry) => entry.serial == serial && entry.payload.as_slice() == payload,
        None => false,
    }
}

#[test]
fn settings_are_played_in_order(rt: HostRuntime) -> Result<(), Fail> {
    let mut statements = Statements::new(rt.alloc());
    let rows: [(&[u8], Option<u64>); 3] = [
        (b"\x02shop", Some(3)),
        (b"\x03SELECT 1", None),
        (b"\x03SET NAMES utf8mb4", Some(4)),
    ];
    for (payload, serial) in rows {
        assert_eq!(rt;
            answer(rt.alloc(), &mut statements, payload, OK, serial).ok(),
            Some(true)
        );
    }
    assert!(rt; is_next(&statements, 0, 3, b"\x02shop"));
    assert!(rt; is_next(&statements, 4, 4, b"\x03SET NAMES utf8mb4"));
    assert!(rt; statements.unplayed(5).is_none() && statements.is_full(2));
    assert_eq!(rt; statements.last_serial(), Some(4));
    Ok(())
}
