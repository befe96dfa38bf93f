//! What no clause of `Deframer` says: how much room its buffer keeps, how much a payload takes, and what is printed. Beside
//! it the number that is due, at each cut of small streams.

use super::{Deframer, KEPT_ROOM};
use crate::frame;
use std::alloc::{AllocError, Global};
use std::test::Fail;

/// Payloads of these sizes, one behind the other: the room that a large one took is kept for the next large one, and is
/// given back behind a small one.
#[test]
fn room_is_kept_for_payloads_of_a_size(rt: HostRuntime) -> Result<(), Fail> {
    let mut deframer = Deframer::new(rt.alloc(), 0x100_0000);
    for (size, is_kept) in [
        (KEPT_ROOM / 4, true),
        (2 * KEPT_ROOM, true),
        (2 * KEPT_ROOM, true),
        (KEPT_ROOM / 4, false),
        (KEPT_ROOM / 4, true),
    ] {
        let payload = vec![in rt.alloc(); 7u8; size]?;
        let mut stream = Vec::new(rt.alloc());
        frame(&payload, 0, &mut stream)?;
        for piece in stream.chunks(0x4000) {
            deframer.feed(piece)?;
        }
        let grown = deframer.bytes.capacity();
        let read = deframer.next_payload(0)?;
        let room = read.map(|payload| payload.bytes.into_bytes().capacity());
        assert_eq!(rt; room, Some(size));
        assert_eq!(rt; deframer.bytes.capacity(), if is_kept { grown } else { 0 });
    }
    Ok(())
}

#[test]
fn debug_prints_no_bytes(rt: HostRuntime) -> Result<(), Fail> {
    let mut deframer = Deframer::new(rt.alloc(), 9);
    deframer.feed(b"secret")?;
    let text = format!(in rt.alloc(); "{deframer:?}")?;
    assert_eq!(rt;
        text.as_str(),
        "Deframer { limit: 9, held: 6, stopped: None }"
    );
    Ok(())
}

/// Whether this number is due wherever a stream is cut into what is held and a piece.
fn is_due_at_each_cut(
    alloc: Global,
    first: u8,
    stream: &[u8],
    due: u8,
) -> Result<bool, AllocError> {
    for cut in 0..=stream.len() {
        let mut deframer = Deframer::new(alloc, 3);
        deframer.feed(&stream[..cut])?;
        if deframer.number_due(first, &stream[cut..]) != due {
            return Ok(false);
        }
    }
    Ok(true)
}

#[test]
fn numbers_due(rt: HostRuntime) -> Result<(), Fail> {
    for (first, stream, due) in [
        (1, [].as_slice(), 1),
        (1, &[3, 0, 0, 1, 7, 7], 1),
        (1, &[3, 0, 0, 1, 7, 7, 7], 2),
        (255, &[0, 0, 0, 255], 0),
        (1, &[3, 0, 0, 2, 7, 7, 7], 1),
        (1, &[4, 0, 0, 1, 7, 7, 7, 7], 1),
        (1, &[1, 0, 0, 1, 7, 1, 0, 0, 2, 7], 2),
    ] {
        assert!(rt;
            is_due_at_each_cut(rt.alloc(), first, stream, due)?,
            "{stream:?}"
        );
    }
    Ok(())
}

/// A full packet is counted where its last byte is there, and the packet behind it by its own number.
#[test]
fn number_due_behind_a_full_packet(rt: HostRuntime) -> Result<(), Fail> {
    let full = vec![in rt.alloc(); 7u8; 0xFF_FFFF]?;
    let mut deframer = Deframer::new(rt.alloc(), 0x100_0000);
    deframer.feed(&[0xFF, 0xFF, 0xFF, 1])?;
    assert_eq!(rt; deframer.number_due(1, &full[1..]), 1);
    assert_eq!(rt; deframer.number_due(1, &full), 2);
    deframer.feed(&full)?;
    assert_eq!(rt; deframer.number_due(1, &[1, 0, 0, 2]), 2);
    assert_eq!(rt; deframer.number_due(1, &[1, 0, 0, 2, 9]), 3);
    assert_eq!(rt; deframer.number_due(1, &[1, 0, 0, 1, 9]), 2);
    assert_eq!(rt; deframer.number_due(1, &[2, 0, 0, 2, 9, 9]), 2);
    Ok(())
}
