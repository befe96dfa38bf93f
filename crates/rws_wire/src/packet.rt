//! One packet at the front of bytes, a header and so many bytes ("Standard packet").
ghost use Rattle.std.specs.Prelude.{◌≡◌, ◌<◌, ◌^◌};
ghost use Rattle.rws_wire.specs.Payloads.{packet_of, packet_with};

use crate::WireFault;

/// The length of a packet behind which its payload goes on.
pub const FULL_PACKET: usize = 0xFF_FFFF;

/// The length of a header: three bytes of length, one of number.
pub const HEADER_LEN: usize = 4;

/// What bytes begin with, read as a packet of a payload.
#[derive(Clone, Copy)]
pub enum Packet {
    /// No whole packet as yet, and no fault.
    Partial,
    /// A header that is wrong there.
    Bad(WireFault),
    /// A full packet, of so many bytes: its payload goes on in the next one.
    More(usize),
    /// A packet of so many bytes, the last one of its payload.
    Last(usize),
}

/// The packet that the bytes begin with, if it is to have this number and `before` bytes of its payload come
/// before it.
pub fn packet_of(bytes: &[u8], number: u8, before: usize, limit: u64) -> Packet
    requires { before < 2 ^ 63 }
    ensures { result ≡ packet_of limit number before bytes.now }
{
    match bytes {
        [a, b, c, got, rest @ ..] => {
            if *got != number {
                return Packet::Bad(WireFault::OutOfOrder {
                    want: number,
                    got: *got,
                });
            }
            packet_with(u32::from_le_bytes([*a, *b, *c, 0]), rest, before, limit)
        }
        _ => Packet::Partial,
    }
}

/// The packet whose header has the due number and announces so many bytes, by the rest behind the header.
#[tactic(auto, unfolding(crate::specs::Packets::full_packet))]
fn packet_with(announced: u32, rest: &[u8], before: usize, limit: u64) -> Packet
    requires { before < 2 ^ 63 }
    ensures { result ≡ packet_with limit before announced rest.now }
{
    let size = announced as usize;
    let length = (before + size) as u64;
    if length > limit {
        Packet::Bad(WireFault::TooLarge { length })
    } else if rest.len() < size {
        Packet::Partial
    } else if size == FULL_PACKET {
        Packet::More(size)
    } else {
        Packet::Last(size)
    }
}
