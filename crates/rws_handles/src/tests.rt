//! What no clause says: the calls with ample memory, on executes as clients send them.

use super::*;
use rws_wire::{PayloadList, Text};
use std::alloc::{AllocError, Global};
use std::test::Fail;

/// `select ?` with one parameter, run with the text `a` and with its type.
const WITH_TYPES: [u8; 16] = [0x17, 1, 0, 0, 0, 0, 1, 0, 0, 0, 0, 1, 0xFD, 0, 1, b'a'];

/// The same of the last prepare, with the text `b` and no type.
const OF_THE_LAST: [u8; 14] = [0x17, 0xFF, 0xFF, 0xFF, 0xFF, 0, 1, 0, 0, 0, 0, 0, 1, b'b'];

/// Handles with `select ?` as the client's 1, which has the id 7 on link 2.
fn one_statement(alloc: Global) -> Result<Handles, HandleFault> {
    let mut handles = Handles::new(alloc);
    let number = handles.opened(Text::from_slice(alloc, b"select ?")?, 1, 1)?;
    handles.on_link(number, 2, 7)?;
    Ok(handles)
}

#[test]
fn executes_are_sent_with_the_id_and_the_types(rt: HostRuntime) -> Result<(), Fail> {
    let mut handles = one_statement(rt.alloc())?;
    assert!(rt; handles.long_data(0xFFFF_FFFF, 3, b"xy").is_ok());
    assert_eq!(rt; handles.long_bytes(1), 2);
    let mut out = PayloadList::new(rt.alloc());
    for payload in [WITH_TYPES.as_slice(), &OF_THE_LAST] {
        let kept = handles.take_execute(payload)?;
        assert!(rt; handles.on_wire(&kept, 2, &mut out).is_ok());
    }
    let sent: [&[u8]; 3] = [
        &[0x18, 7, 0, 0, 0, 3, 0, b'x', b'y'],
        &[0x17, 7, 0, 0, 0, 0, 1, 0, 0, 0, 0, 1, 0xFD, 0, 1, b'a'],
        &[0x17, 7, 0, 0, 0, 0, 1, 0, 0, 0, 0, 1, 0xFD, 0, 1, b'b'],
    ];
    assert_eq!(rt; out.len(), 3);
    for (payload, expected) in out.as_slice().iter().zip(sent.iter()) {
        assert_eq!(rt; payload.as_slice(), *expected);
    }
    Ok(())
}

#[test]
fn malformed_executes_are_refused(rt: HostRuntime) -> Result<(), Fail> {
    let mut handles = one_statement(rt.alloc())?;
    let refused: [(&[u8], ExecuteFault); 6] = [
        (&[0x17], ExecuteFault::UnknownHandle),
        (&[0x17, 1, 0, 0], ExecuteFault::UnknownHandle),
        (&[0x17, 2, 0, 0, 0, 1], ExecuteFault::UnknownHandle),
        (&[0x17, 1, 0, 0, 0, 1], ExecuteFault::CursorAsked),
        (
            &[0x17, 1, 0, 0, 0, 0, 1, 0, 0, 0, 0, 2],
            ExecuteFault::BadExecute,
        ),
        (&OF_THE_LAST, ExecuteFault::BadExecute),
    ];
    for (payload, fault) in refused {
        assert_eq!(rt; handles.take_execute(payload).err(), Some(fault));
    }
    for end in 5..14 {
        assert_eq!(rt;
            handles.take_execute(&WITH_TYPES[..end]).err(),
            Some(ExecuteFault::BadExecute)
        );
    }
    assert!(rt; handles.close(1, false).is_ok());
    assert_eq!(rt;
        handles.take_execute(&WITH_TYPES).err(),
        Some(ExecuteFault::UnknownHandle)
    );
    assert_eq!(rt; handles.take_closed(2), Some(7));
    assert_eq!(rt; handles.take_closed(2), None);
    Ok(())
}

/// The number of a new statement, if there is room for one.
fn next(handles: &mut Handles, alloc: Global) -> Result<Option<u32>, AllocError> {
    if handles.is_full() {
        return Ok(None);
    }
    let text = Text::from_slice(alloc, b"select 1")?;
    Ok(Some(handles.opened(text, 1, 0)?))
}

#[test]
fn numbers_are_given_out_again(rt: HostRuntime) -> Result<(), Fail> {
    let mut handles = Handles::new(rt.alloc());
    for number in 1..5u32 {
        assert_eq!(rt; next(&mut handles, rt.alloc())?, Some(number));
    }
    for (number, later) in [(4, true), (1, false), (2, true)] {
        assert!(rt; handles.close(number, later).is_ok());
    }
    handles.sweep();
    for number in [4u32, 2, 1, 5] {
        assert_eq!(rt; next(&mut handles, rt.alloc())?, Some(number));
    }
    assert_eq!(rt; handles.count(), 5);
    Ok(())
}

#[test]
fn a_number_that_was_given_back_comes_before_a_new_one(rt: HostRuntime) -> Result<(), Fail> {
    let mut handles = Handles::new(rt.alloc());
    assert_eq!(rt; next(&mut handles, rt.alloc())?, Some(1));
    assert_eq!(rt; next(&mut handles, rt.alloc())?, Some(2));
    assert!(rt; handles.close(1, false).is_ok());
    assert_eq!(rt; next(&mut handles, rt.alloc())?, Some(1));
    Ok(())
}

#[test]
fn an_id_that_no_statement_has_is_to_be_closed(rt: HostRuntime) -> Result<(), Fail> {
    let mut handles = Handles::new(rt.alloc());
    handles.closed_on(2, 9)?;
    handles.closed_on(2, 7)?;
    assert_eq!(rt; handles.take_closed(3), None);
    assert_eq!(rt; handles.take_closed(2), Some(7));
    assert_eq!(rt; handles.take_closed(2), Some(9));
    assert_eq!(rt; handles.take_closed(2), None);
    Ok(())
}
