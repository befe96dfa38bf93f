//! A connector's opening on a new link, a full history, and what a removal leaves.

use crate::{Entry, History, PushFault};
use rws_wire::Text;
use std::alloc::{AllocError, Global};
use std::test::Fail;

const OPENING: &[u8] = b"\x03set autocommit=1, sql_mode=concat(@@sql_mode,',STRICT_TRANS_TABLES')";

fn query(alloc: Global, command: &[u8]) -> Result<Entry, AllocError> {
    Ok(Entry {
        command: Text::from_slice(alloc, command)?,
        client_id: None,
        columns: 0,
        parameters: 0,
    })
}

// Whether there was an entry that the link hadn't played.
fn plays_one(history: &mut History, link: u64) -> bool {
    let Some(at) = history.cursor(link) else {
        return false;
    };
    if at == history.len() {
        return false;
    }
    history.advance(link);
    true
}

#[test]
fn a_new_link_plays_the_opening_statement(rt: HostRuntime) -> Result<(), Fail> {
    let mut history = History::new(rt.alloc(), 50);
    history.push(query(rt.alloc(), OPENING)?)?;
    history.add_link(2)?;
    let first = history.cursor(2).and_then(|at| history.entry(at));
    assert_eq!(rt; first.map(|entry| entry.command.as_slice()), Some(OPENING));
    assert!(rt; plays_one(&mut history, 2));
    assert!(rt; !plays_one(&mut history, 2));
    assert!(rt; history.entry(1).is_none());
    Ok(())
}

#[test]
fn a_removal_lowers_what_lies_above(rt: HostRuntime) -> Result<(), Fail> {
    let mut history = History::new(rt.alloc(), 3);
    history.add_link(1)?;
    history.add_link(2)?;
    for command in [b"\x03use a", b"\x03use b", b"\x03use c"] {
        history.push(query(rt.alloc(), command)?)?;
        history.set_mark();
    }
    let refused = history.push(query(rt.alloc(), b"\x03use d")?);
    assert_eq!(rt; refused, Err(PushFault::Full));
    for _ in 0..2 {
        assert!(rt; plays_one(&mut history, 1));
    }
    if !history.is_empty() {
        history.remove(0);
    }
    history.drop_link(3);
    let places = [
        history.cursor(1),
        history.cursor(2),
        history.cursor(3),
        Some(history.mark()),
        Some(history.len()),
    ];
    assert_eq!(rt; places, [Some(1), Some(0), None, Some(2), Some(2)]);
    Ok(())
}
