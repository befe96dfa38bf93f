//! Payloads read from packets: a loop that looks at headers alone, and one that copies what they announce. What is read
//! behind the bytes so far is always what all bytes begin with.
ghost use Rattle.std.specs.Prelude.{◌≡◌, ◌+◌, ◌<◌, ◌≤◌, ◌^◌, drop, length, take, IfOk};
ghost use Rattle.rws_wire.specs.Payloads.{Whole, first_payload};
ghost use Rattle.rws_wire.specs.Gathering.{IsSpelled, look_of};
ghost use Rattle.rws_wire.specs.declared.gathering.Look as Look;

use crate::packet::{HEADER_LEN, Packet, packet_of};
use crate::{Payload, Text, WireFault};
use std::alloc::{AllocError, Global};

/// The bytes of a packet at the front, behind its header, and the bytes behind the packet.
fn split_packet(bytes: &[u8], size: usize) -> (&[u8], &[u8])
    requires { 4 + size ≤ length bytes.now }
    ensures chunk { result.0.now ≡ take size (drop 4 bytes.now) }
    ensures behind { result.1.now ≡ drop size (drop 4 bytes.now) }
{
    bytes[HEADER_LEN..].split_at(size)
}

/// What bytes begin with, as far as headers tell.
#[derive(Clone, Copy)]
pub enum Look {
    /// No whole payload as yet, and no fault.
    Partial,
    /// A whole payload of so many bytes.
    Whole(usize),
    /// A fault.
    Bad(WireFault),
}

/// What the bytes begin with. It reads headers alone, so that asking again for a payload that comes in many pieces
/// costs little, and that nothing is copied before the payload is whole.
pub fn look_at(bytes: &[u8], first: u8, limit: u64) -> Look
    requires { length bytes.now < 2 ^ 63 }
    ensures { result ≡ look_of (first_payload limit first bytes.now) }
{
    let mut number = first;
    let mut before = 0;
    let mut rest = bytes;
    'packets: loop {
        match packet_of(rest, number, before, limit) {
            Packet::Partial => return Look::Partial,
            Packet::Bad(fault) => return Look::Bad(fault),
            Packet::Last(size) => return Look::Whole(before + size),
            Packet::More(size) => {
                before += size;
                rest = split_packet(rest, size).1;
                number = number.wrapping_add(1);
            }
        }
    }
}

/// The whole payload that the bytes begin with, of `total` bytes, and the bytes behind it. It takes room for that
/// many bytes and no more, as its owner may keep it for long.
pub fn gather(
    alloc: Global,
    bytes: &[u8],
    first: u8,
    limit: u64,
    total: usize,
) -> Result<(Payload, &[u8]), AllocError>
    requires fits { length bytes.now < 2 ^ 63 }
    requires whole { look_of (first_payload limit first bytes.now) ≡ Look.Whole total }
    ensures gathers { IfOk result (λ read. first_payload limit first bytes.now ≡ Whole read.0.bytes read.0.next read.1.now) }
    ensures spelled { IfOk result (λ read. IsSpelled limit bytes.now first read.1.now read.0) }
{
    let mut number = first;
    let mut payload = Vec::with_capacity(alloc, total)?;
    let mut rest = bytes;
    'packets: loop {
        match packet_of(rest, number, payload.len(), limit) {
            Packet::Partial => unreachable!(),
            Packet::Bad(_) => unreachable!(),
            Packet::Last(size) => {
                let (chunk, behind) = split_packet(rest, size);
                payload.extend_from_slice(chunk)?;
                let payload = Payload {
                    bytes: Text::new(payload),
                    next: number.wrapping_add(1),
                };
                return Ok((payload, behind));
            }
            Packet::More(size) => {
                let (chunk, behind) = split_packet(rest, size);
                payload.extend_from_slice(chunk)?;
                number = number.wrapping_add(1);
                rest = behind;
            }
        }
    }
}
