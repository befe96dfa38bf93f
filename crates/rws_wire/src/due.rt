//! The number that the next packet is to have, read from bytes that stand in two pieces, one behind the other. Headers alone
//! are read, and nothing is copied.
ghost use Rattle.std.specs.Prelude.{◌≡◌, ◌≤◌, ◌<◌, ◌∷◌, ◌++◌, [], drop, length, nat_lt, not, MatchOption};
ghost use Rattle.rws_wire.specs.Due.{number_due, unless_bad};
ghost use Rattle.rws_wire.specs.Payloads.{packet_of, packet_with};

use crate::packet::{FULL_PACKET, HEADER_LEN, Packet};

/// The first byte of both, and what is left of them.
fn first_byte<'a>(front: &'a [u8], back: &'a [u8]) -> Option<(u8, &'a [u8], &'a [u8])>
    ensures { MatchOption result (front.now ++ back.now ≡ []) (λ x. front.now ++ back.now ≡ x.0 ∷ (x.1.now ++ x.2.now)) }
{
    match front {
        [byte, rest @ ..] => Some((*byte, rest, back)),
        [] => match back {
            [byte, rest @ ..] => Some((*byte, front, rest)),
            [] => None,
        },
    }
}

/// The four bytes of a header, and what stands behind it.
fn header_of<'a>(front: &'a [u8], back: &'a [u8]) -> Option<(u8, u8, u8, u8, &'a [u8], &'a [u8])>
    ensures { MatchOption result (length (front.now ++ back.now) < 4)
        (λ x. front.now ++ back.now ≡ x.0 ∷ x.1 ∷ x.2 ∷ x.3 ∷ (x.4.now ++ x.5.now)) }
{
    let (a, front, back) = first_byte(front, back)?;
    let (b, front, back) = first_byte(front, back)?;
    let (c, front, back) = first_byte(front, back)?;
    let (got, front, back) = first_byte(front, back)?;
    Some((a, b, c, got, front, back))
}

/// Whether both have so many bytes together.
fn has(front: &[u8], back: &[u8], size: usize) -> bool
    ensures { result ≡ not (nat_lt (length (front.now ++ back.now)) size) }
{
    size <= front.len() || size - front.len() <= back.len()
}

/// What stands behind so many bytes.
fn behind<'a>(front: &'a [u8], back: &'a [u8], size: usize) -> (&'a [u8], &'a [u8])
    requires { size ≤ length (front.now ++ back.now) }
    ensures { result.0.now ++ result.1.now ≡ drop size (front.now ++ back.now) }
{
    if size <= front.len() {
        (&front[size..], back)
    } else {
        (&[], &back[size - front.len()..])
    }
}

/// The packet that both begin with, if it is to have this number and `before` bytes of its payload come before it; none
/// where it is faulty.
fn packet_of<'a>(front: &'a [u8], back: &'a [u8], number: u8, before: u64, limit: u64) -> Packet
    requires { before ≤ limit }
    ensures { result ≡ unless_bad (packet_of limit number before (front.now ++ back.now)) }
{
    let Some((a, b, c, got, front, back)) = header_of(front, back) else {
        return Packet::Partial;
    };
    if got != number {
        return Packet::Partial;
    }
    packet_with(u32::from_le_bytes([a, b, c, 0]), front, back, before, limit)
}

/// The packet whose header has the due number and announces so many bytes, by what stands behind the header.
#[tactic(auto, unfolding(crate::specs::Packets::full_packet))]
fn packet_with(announced: u32, front: &[u8], back: &[u8], before: u64, limit: u64) -> Packet
    requires { before ≤ limit }
    ensures { result ≡ unless_bad (packet_with limit before announced (front.now ++ back.now)) }
{
    let size = announced as usize;
    if size as u64 > limit - before || !has(front, back, size) {
        Packet::Partial
    } else if size == FULL_PACKET {
        Packet::More(size)
    } else {
        Packet::Last(size)
    }
}

/// The number behind the whole packets, in order and within the limit, of the payload that both begin with, if its first
/// packet is to have the number `first`; `first` itself where there is none.
pub fn number_due<'a>(held: &'a [u8], piece: &'a [u8], first: u8, limit: u64) -> u8
    ensures { result ≡ number_due limit first (held.now ++ piece.now) }
{
    let mut number = first;
    let mut before = 0;
    let mut front = held;
    let mut back = piece;
    'packets: loop {
        match packet_of(front, back, number, before, limit) {
            Packet::Partial => return number,
            Packet::Bad(_) => return number,
            Packet::Last(_) => return number.wrapping_add(1),
            Packet::More(size) => {
                before += size as u64;
                number = number.wrapping_add(1);
                let (rest, last) = behind(front, back, HEADER_LEN);
                (front, back) = behind(rest, last, size);
            }
        }
    }
}
