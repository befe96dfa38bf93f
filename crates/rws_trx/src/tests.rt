//! A worked session, reply by reply, and what it may send again.

use crate::{Answer, Open, Transaction, TrxState};
use rws_class::Class;
use rws_reply::Outcome;
use std::test::Fail;

/// Each command, the status of its reply, None where that is an error, then what is open and whether it is tainted.
const SESSION: [(Class, Option<u16>, Open, bool); 12] = [
    (Class::Begin, Some(0x0003), Open::ReadWrite, false),
    (Class::Read, Some(0x0023), Open::ReadWrite, false),
    (Class::Write, None, Open::ReadWrite, true),
    (Class::Commit, Some(0x0002), Open::Nothing, false),
    (Class::Write, None, Open::Nothing, false),
    (Class::BeginReadOnly, Some(0x0003), Open::ReadOnly, false),
    (Class::Begin, Some(0x0003), Open::ReadWrite, false),
    (Class::Read, None, Open::ReadWrite, true),
    (Class::Begin, Some(0x0003), Open::ReadWrite, false),
    (Class::AutocommitOff, Some(0x0001), Open::ReadWrite, false),
    (Class::Rollback, Some(0x0000), Open::Nothing, false),
    (Class::BeginReadOnly, Some(0x0001), Open::ReadWrite, false),
];

#[test]
fn a_session_reply_by_reply(rt: HostRuntime) -> Result<(), Fail> {
    let mut state = TrxState::new();
    for (class, status, opened, tainted) in SESSION {
        match status {
            Some(status) => state.after_done(class, status),
            None => state.after_error(),
        }
        assert!(rt;
            state.opened == opened && state.tainted == tainted,
            "{class:?}"
        );
    }
    assert!(rt; !state.autocommit);
    Ok(())
}

#[test]
fn a_lost_commit_is_not_sent_again(rt: HostRuntime) -> Result<(), Fail> {
    let mut state = TrxState::new();
    assert!(rt; state.sends_again(Class::Commit) && !state.sends_again(Class::Write));
    state.after_done(Class::Begin, 0x0003);
    assert!(rt; !state.sends_again(Class::Commit) && state.sends_again(Class::Write));
    Ok(())
}

/// A reply to a command of six bytes, on link 3.
fn answer(class: Class, status: u16) -> Answer {
    Answer {
        link: 3,
        class,
        bytes: 6,
        outcome: Outcome::Done { status },
    }
}

#[test]
fn a_transaction_is_open_on_its_link(rt: HostRuntime) -> Result<(), Fail> {
    let begun = Transaction::new().answered(answer(Class::Begin, 0x0003));
    assert_eq!(rt; (begun.link, begun.bytes), (Some(3), 6));
    assert_eq!(rt; begun.state.status(), 0x0003);
    let read = begun.answered(answer(Class::Read, 0x0003));
    assert_eq!(rt; (read.link, read.bytes), (Some(3), 12));
    let ended = read.answered(answer(Class::Commit, 0x0002));
    assert_eq!(rt; (ended.link, ended.bytes), (None, 0));
    assert_eq!(rt; ended.state.status(), 0x0002);
    Ok(())
}
