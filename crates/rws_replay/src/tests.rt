//! A log at its limit, and a replay that is lost, begins again and meets another reply.

use crate::{Attempts, Mismatch, ReplayLog, Replayer, SentFault};
use rws_checksum::Digest;
use rws_wire::{PayloadList, Text};
use std::alloc::{AllocError, Global};
use std::test::Fail;

/// A command of one payload.
fn command(alloc: Global, text: &[u8]) -> Result<PayloadList, AllocError> {
    let mut payloads = PayloadList::new(alloc);
    payloads.push(Text::from_slice(alloc, text)?)?;
    Ok(payloads)
}

/// The sums of two replies, and of another one.
const FIRST: Digest = [1; 20];

const SECOND: Digest = [2; 20];

const OTHER: Digest = [3; 20];

#[test]
fn a_log_up_to_its_limit(rt: HostRuntime) -> Result<(), Fail> {
    let alloc = rt.alloc();
    let mut log = ReplayLog::new(alloc, 1_048_576);
    assert!(rt; log.sent(command(alloc, b"\x03begin")?, 1_048_576).is_ok());
    assert!(rt; log.command(0).is_some() && log.command(1).is_none() && log.is_empty());
    let refused = log.sent(command(alloc, b"\x03")?, 1);
    assert_eq!(rt; refused, Err(SentFault::TooLarge { bytes: 1_048_577 }));
    assert!(rt; log.command(0).is_none() && log.bytes() == 1_048_577);
    let refused = log.sent(command(alloc, b"")?, u64::MAX);
    assert_eq!(rt; refused, Err(SentFault::TooLarge { bytes: u64::MAX }));
    log.clear();
    assert!(rt; log.bytes() == 0 && log.sent(command(alloc, b"\x03begin")?, 6).is_ok());
    Ok(())
}

/// A log of two answered commands and one that isn't.
fn three_commands(alloc: Global) -> Result<ReplayLog, SentFault> {
    let mut log = ReplayLog::new(alloc, 100);
    log.answered(OTHER);
    for text in [
        b"\x03begin".as_slice(),
        b"\x03select a from t",
        b"\x03delete from t",
    ] {
        log.sent(command(alloc, text)?, text.len() as u64)?;
    }
    log.answered(FIRST);
    log.answered(SECOND);
    Ok(log)
}

/// What the comparison of the next reply says; None where there is nothing to compare it with.
fn compared(
    replayer: &mut Replayer,
    log: &ReplayLog,
    sum: &Digest,
) -> Option<Result<(), Mismatch>> {
    match replayer.next() {
        Some(at) if at < log.len() => Some(replayer.compare(log, sum)),
        _ => None,
    }
}

#[test]
fn a_replay_from_its_first_command(rt: HostRuntime) -> Result<(), Fail> {
    let log = three_commands(rt.alloc())?;
    let mut replayer = Replayer::new(log.len());
    assert_eq!(rt; compared(&mut replayer, &log, &FIRST), Some(Ok(())));
    assert_eq!(rt; compared(&mut replayer, &log, &SECOND), Some(Ok(())));
    assert_eq!(rt; compared(&mut replayer, &log, &SECOND), None);
    Ok(())
}

#[test]
fn another_reply(rt: HostRuntime) -> Result<(), Fail> {
    let log = three_commands(rt.alloc())?;
    let mut replayer = Replayer::new(log.len());
    let differs = Mismatch {
        item: 0,
        old: FIRST,
        new: OTHER,
    };
    assert_eq!(rt; compared(&mut replayer, &log, &OTHER), Some(Err(differs)));
    assert_eq!(rt; replayer.next(), Some(0));
    Ok(())
}

#[test]
fn lost_too_often(rt: HostRuntime) {
    let mut replayer = Replayer::new(2);
    assert!(rt; replayer.lost(2).is_ok());
    assert_eq!(rt; replayer.lost(2), Err(Attempts { n: 2 }));
    assert_eq!(rt; replayer.next(), Some(0));
}
