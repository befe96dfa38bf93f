//! Length-encoded integers ("Protocol Data Types"), read from the front or at a place, and written as short as can be.
ghost use Rattle.std.specs.Prelude.{◌≡◌, ◌≤◌, ◌+◌, ◌++◌, List, ℕ, drop, length, IfOk, OnOk, OnErr};
ghost use Rattle.rws_wire.specs.Lenenc.{Integer, integer_at, lenenc, lenenc_bytes};
ghost use Rattle.rws_wire.specs.LenencRead.{Splits};
ghost use Rattle.rws_wire.specs.Numbers.{AreBytes};

use std::alloc::AllocError;

/// Why bytes begin with no length-encoded integer.
#[derive(Clone, Copy, Debug, PartialEq, Eq)]
pub enum LenencFault {
    /// They end early.
    Short,
    /// Their first byte is 0xFB, which is NULL in a row, or 0xFF, which begins an error.
    NoInteger,
}

/// The length-encoded integer that the bytes begin with, and the bytes behind it. Longer spellings than needed
/// are read too.
#[tactic(auto, unfolding(crate::specs::Lenenc::lenenc))]
pub fn split_lenenc(bytes: &[u8]) -> Result<(u64, &[u8]), LenencFault>
    ensures splits { Splits result (lenenc bytes.now) }
    ensures behind { IfOk result (λ found. length found.1.now ≤ length bytes.now) }
{
    match bytes {
        [first, rest @ ..] if *first < 0xFB => Ok((u64::from(*first), rest)),
        [0xFC, a, b, rest @ ..] => Ok((u64::from(u16::from_le_bytes([*a, *b])), rest)),
        [0xFD, a, b, c, rest @ ..] => Ok((u64::from(u32::from_le_bytes([*a, *b, *c, 0])), rest)),
        [0xFE, a, b, c, d, e, f, g, h, rest @ ..] => {
            let value = u64::from_le_bytes([*a, *b, *c, *d, *e, *f, *g, *h]);
            Ok((value, rest))
        }
        [0xFB | 0xFF, ..] => Err(LenencFault::NoInteger),
        _ => Err(LenencFault::Short),
    }
}

/// The length-encoded integer at the place `at`, counted from 0, and the place behind it. None where the bytes
/// end before it does, or it would begin with 0xFB or 0xFF.
pub fn read_lenenc(bytes: &[u8], at: usize) -> Option<(u64, usize)>
    ensures { result ≡ integer_at bytes.now at }
{
    if at > bytes.len() {
        return None;
    }
    let (value, rest) = split_lenenc(&bytes[at..]).ok()?;
    Some((value, bytes.len() - rest.len()))
}

/// Appends the number in its shortest spelling. `Err` leaves `out` as it was.
pub fn put_lenenc(value: u64, out: &mut Vec<u8>) -> Result<(), AllocError>
    ensures ok { OnOk result (out.new.items ≡ out.old.items ++ lenenc_bytes value) }
    ensures err { OnErr result (out.new.items ≡ out.old.items) }

    // It is read back, whatever follows it, and no other spelling is shorter.
    ensures read_back { (rest : List ℕ) → lenenc (lenenc_bytes value ++ rest) ≡ Integer value rest }
    ensures shortest { (bytes rest : List ℕ) → AreBytes bytes → lenenc bytes ≡ Integer value rest
        → length (lenenc_bytes value) + length rest ≤ length bytes }
{
    put_shortest(value, out)
}

/// The spelling alone, without what is said of reading it.
#[tactic(auto, unfolding(crate::specs::Lenenc::lenenc_bytes))]
fn put_shortest(value: u64, out: &mut Vec<u8>) -> Result<(), AllocError>
    ensures ok { OnOk result (out.new.items ≡ out.old.items ++ lenenc_bytes value) }
    ensures err { OnErr result (out.new.items ≡ out.old.items) }
{
    let [a, b, c, d, e, f, g, h] = value.to_le_bytes();
    match value {
        0..=0xFA => out.extend_from_slice(&[a]),
        0xFB..=0xFFFF => out.extend_from_slice(&[0xFC, a, b]),
        0x1_0000..=0xFF_FFFF => out.extend_from_slice(&[0xFD, a, b, c]),
        _ => out.extend_from_slice(&[0xFE, a, b, c, d, e, f, g, h]),
    }
}
