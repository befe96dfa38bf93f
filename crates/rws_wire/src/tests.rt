//! Worked packets and integers, and each call that takes memory once.

use super::*;
use std::alloc::{AllocError, Global};
use std::test::Fail;

#[test]
fn lenencs(rt: HostRuntime) -> Result<(), Fail> {
    assert_eq!(rt; read_lenenc(&[0xFC, 1, 0], 0), Some((1, 3)));
    assert_eq!(rt; read_lenenc(&[9, 0xFD, 1, 2, 3], 1), Some((0x030201, 5)));
    for bytes in [
        [].as_slice(),
        &[0xFB, 0],
        &[0xFF, 0],
        &[0xFD, 1, 2],
        &[0xFE, 1, 2, 3, 4, 5, 6, 7],
    ] {
        assert_eq!(rt; read_lenenc(bytes, 0), None, "{bytes:?}");
    }
    let mut out = Vec::new(rt.alloc());
    put_lenenc(251, &mut out)?;
    assert_eq!(rt; out.as_slice(), [0xFC, 0xFB, 0].as_slice());
    Ok(())
}

#[test]
fn payloads_in_pieces(rt: HostRuntime) -> Result<(), Fail> {
    let stream = [1, 0, 0, 255, 14, 0, 0, 0, 0, 2, 0, 0, 1, 15, 16, 9];
    let mut deframer = Deframer::new(rt.alloc(), 2);
    let mut numbers = Vec::new(rt.alloc());
    let mut payloads = PayloadList::new(rt.alloc());
    for piece in stream.chunks(1) {
        deframer.feed(piece)?;
        let due = numbers.last().copied().unwrap_or(255);
        if let Some(payload) = deframer.next_payload(due)? {
            numbers.push(payload.next)?;
            payloads.push(payload.bytes)?;
        }
    }
    assert_eq!(rt; numbers.as_slice(), [0, 1, 2].as_slice());
    assert_eq!(rt; payloads.len(), 3);
    for (payload, bytes) in payloads
        .as_slice()
        .iter()
        .zip([[14].as_slice(), &[], &[15, 16]])
    {
        assert_eq!(rt; payload.as_slice(), bytes);
    }
    assert_eq!(rt; deframer.held(), 1);
    Ok(())
}

#[test]
fn faults(rt: HostRuntime) -> Result<(), Fail> {
    let wrong = WireFault::OutOfOrder { want: 0, got: 1 };
    let large = WireFault::TooLarge { length: 3 };
    for (header, fault) in [([9, 0, 0, 1], wrong), ([3, 0, 0, 0], large)] {
        let mut deframer = Deframer::new(rt.alloc(), 2);
        deframer.feed(&header[..3])?;
        assert!(rt; matches!(deframer.next_payload(0), Ok(None)));
        deframer.feed(&header[3..])?;
        assert_eq!(rt;
            deframer.next_payload(0).err(),
            Some(NextError::Fault(fault))
        );
        assert_eq!(rt;
            deframer.next_payload(1).err(),
            Some(NextError::Fault(fault))
        );
        assert_eq!(rt; deframer.held(), 4);
    }
    Ok(())
}

/// Bytes in a pattern whose length divides that of no piece, so that pieces that are mixed up show.
fn patterned(alloc: Global, size: usize) -> Result<Vec<u8>, AllocError> {
    let mut bytes = Vec::with_capacity(alloc, size)?;
    for at in 0..size {
        bytes.push((at % 251) as u8)?;
    }
    Ok(bytes)
}

#[test]
fn full_packet_has_an_empty_one_behind(rt: HostRuntime) -> Result<(), Fail> {
    let mut out = Vec::new(rt.alloc());
    let payload = vec![in rt.alloc(); 7u8; packet::FULL_PACKET]?;
    assert_eq!(rt; frame(&payload, 0, &mut out)?, 2);
    assert_eq!(rt; out.len(), 16_777_223);
    assert_eq!(rt; out.as_slice().last_chunk::<4>(), Some(&[0, 0, 0, 1]));
    Ok(())
}

/// Linear in the bytes: a reader that copied what it holds at each piece would move 128 GiB here.
#[test]
fn large_payload_in_small_pieces(rt: HostRuntime) -> Result<(), Fail> {
    let payload = patterned(rt.alloc(), 2 * packet::FULL_PACKET + 5)?;
    let mut stream = Vec::new(rt.alloc());
    let next = frame(&payload, 254, &mut stream)?;
    let mut deframer = Deframer::new(rt.alloc(), 0x400_0000);
    let mut read = None;
    for piece in stream.chunks(4096) {
        assert!(rt; read.is_none());
        deframer.feed(piece)?;
        read = deframer.next_payload(254)?;
    }
    let is_same = read.map(|read| read.next == next && read.bytes.as_slice() == payload.as_slice());
    assert_eq!(rt; is_same, Some(true));
    assert_eq!(rt; next, 1);
    Ok(())
}

#[test]
fn texts(rt: HostRuntime) -> Result<(), Fail> {
    let mut text = Text::from_slice(rt.alloc(), b"ab")?;
    text.push(b'c')?;
    text.extend_from_slice(b"de")?;
    let mut list = TextList::new(rt.alloc());
    list.push(text.clone()?)?;
    let mut payloads = PayloadList::new(rt.alloc());
    payloads.push(text)?;
    for texts in [list.clone()?.as_slice(), payloads.clone()?.as_slice()] {
        assert_eq!(rt; texts.len(), 1);
        assert_eq!(rt; texts[0].as_slice(), b"abcde".as_slice());
    }
    Ok(())
}
