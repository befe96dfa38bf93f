//! Payloads written as packets ("Standard packet"): what is behind the bytes so far is always the packets of what is left.
ghost use Rattle.std.specs.Prelude.{◌≡◌, ◌++◌, List, ℕ, ◌≤◌, ◌<◌, ◌^◌, drop, length, take, OnOk, OnErr, IfOk, MatchOption};
ghost use Rattle.rws_wire.specs.Packets.{full_packet, number_behind, packet, spelling};
ghost use Rattle.rws_wire.specs.Payloads.{Whole, first_payload};

use crate::packet::FULL_PACKET;
use std::alloc::AllocError;

/// Appends the packets of a payload, numbered from `first` on, and gives the number behind the last one. `Err`
/// leaves `out` as it was.
pub fn frame(payload: &[u8], first: u8, out: &mut Vec<u8>) -> Result<u8, AllocError>
    ensures ok { OnOk result (out.new.items ≡ out.old.items ++ spelling first payload.now) }
    ensures next { IfOk result (λ next. next ≡ number_behind first payload.now) }
    ensures err { OnErr result (out.new.items ≡ out.old.items) }

    // It is read back, whatever follows it.
    ensures read_back { (limit : ℕ) (rest : List ℕ) → length payload.now ≤ limit
        → first_payload limit first (spelling first payload.now ++ rest) ≡ Whole payload.now (number_behind first payload.now) rest }
{
    let before = out.len();
    let framed = put_packets(payload, first, out);
    if framed.is_err() {
        out.truncate(before);
    }
    framed
}

/// The same, but where it fails some packets may be left behind the bytes that were there.
fn put_packets(payload: &[u8], first: u8, out: &mut Vec<u8>) -> Result<u8, AllocError>
    ensures ok { OnOk result (out.new.items ≡ out.old.items ++ spelling first payload.now) }
    ensures next { IfOk result (λ next. next ≡ number_behind first payload.now) }
    ensures err { OnErr result (take (length out.old.items) out.new.items ≡ out.old.items) }
{
    let mut number = first;
    let mut rest = payload;
    'packets: while let Some((chunk, behind)) = split_full(rest) {
        put_packet(chunk, number, out)?;
        number = number.wrapping_add(1);
        rest = behind;
    }
    put_packet(rest, number, out)?;
    Ok(number.wrapping_add(1))
}

/// The bytes of a full packet at the front, and the rest.
#[tactic(auto, unfolding(crate::specs::Packets::full_packet))]
fn split_full(payload: &[u8]) -> Option<(&[u8], &[u8])>
    ensures { MatchOption result (length payload.now < full_packet)
        (λ parts. (parts.0.now ≡ take full_packet payload.now) × (parts.1.now ≡ drop full_packet payload.now) × (full_packet ≤ length payload.now)) }
{
    if payload.len() < FULL_PACKET {
        return None;
    }
    Some(payload.split_at(FULL_PACKET))
}

/// Appends one packet: its header, then the bytes.
fn put_packet(bytes: &[u8], number: u8, out: &mut Vec<u8>) -> Result<(), AllocError>
    requires { length bytes.now < 2 ^ 24 }
    ensures ok { OnOk result (out.new.items ≡ out.old.items ++ packet number bytes.now) }
    ensures err { OnErr result (take (length out.old.items) out.new.items ≡ out.old.items) }
{
    let [a, b, c, _] = (bytes.len() as u32).to_le_bytes();
    out.extend_from_slice(&[a, b, c, number])?;
    out.extend_from_slice(bytes)
}
