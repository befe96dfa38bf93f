//! The fields of messages ("Protocol Data Types"), read without memory: each reader gives a value and the bytes behind it,
//! or the first fault.
ghost use Rattle.std.specs.Prelude.{◌≡◌, IfOk, OnErr, length};
ghost use Rattle.rws_msgs.specs.Fields.{HasNoZero, bytes_at, ended, fixed_at, last_text_at, lenenc_at, number_at, text_at, zero_text_at};
ghost use Rattle.rws_wire.specs.Reading.{Reads};

use crate::MsgFault;
use rws_wire::{LenencFault, split_lenenc};

/// A number in one byte.
#[tactic(auto, unfolding(crate::specs::Fields::number_at))]
pub fn u8_at(bytes: &[u8]) -> Result<(u8, &[u8]), MsgFault>
    ensures { Reads (λ x. (x.0, x.1.now)) result (number_at 1 bytes.now) }
{
    match bytes {
        [byte, rest @ ..] => Ok((*byte, rest)),
        [] => Err(MsgFault::Short),
    }
}

/// A number in two bytes.
#[tactic(auto, unfolding(crate::specs::Fields::number_at))]
pub fn u16_at(bytes: &[u8]) -> Result<(u16, &[u8]), MsgFault>
    ensures { Reads (λ x. (x.0, x.1.now)) result (number_at 2 bytes.now) }
{
    match bytes {
        [a, b, rest @ ..] => Ok((u16::from_le_bytes([*a, *b]), rest)),
        _ => Err(MsgFault::Short),
    }
}

/// A number in four bytes.
#[tactic(auto, unfolding(crate::specs::Fields::number_at))]
pub fn u32_at(bytes: &[u8]) -> Result<(u32, &[u8]), MsgFault>
    ensures { Reads (λ x. (x.0, x.1.now)) result (number_at 4 bytes.now) }
{
    match bytes {
        [a, b, c, d, rest @ ..] => Ok((u32::from_le_bytes([*a, *b, *c, *d]), rest)),
        _ => Err(MsgFault::Short),
    }
}

/// So many bytes, copied into an array.
#[tactic(auto, unfolding(crate::specs::Fields::bytes_at))]
pub fn array_at<const N: usize>(bytes: &[u8]) -> Result<([u8; N], &[u8]), MsgFault>
    ensures { Reads (λ x. (x.0, x.1.now)) result (bytes_at N bytes.now) }
{
    match bytes.split_first_chunk::<N>() {
        Some((chunk, rest)) => Ok((*chunk, rest)),
        None => Err(MsgFault::Short),
    }
}

/// So many bytes.
#[tactic(auto, unfolding(crate::specs::Fields::bytes_at))]
pub fn bytes_at(size: usize, bytes: &[u8]) -> Result<(&[u8], &[u8]), MsgFault>
    ensures reads { Reads (λ x. (x.0.now, x.1.now)) result (bytes_at size bytes.now) }
    ensures size { IfOk result (λ x. length x.0.now ≡ size) }
{
    if bytes.len() < size {
        return Err(MsgFault::Short);
    }
    Ok(bytes.split_at(size))
}

/// What stands behind the byte that the layout fixes here.
#[tactic(auto, unfolding(crate::specs::Fields::fixed_at))]
pub fn fixed_at(byte: u8, bytes: &[u8]) -> Result<&[u8], MsgFault>
    ensures { Reads (λ x. x.now) result (fixed_at byte bytes.now) }
{
    match bytes {
        [] => Err(MsgFault::Short),
        [first, rest @ ..] => {
            if *first == byte {
                Ok(rest)
            } else {
                Err(MsgFault::BadTag { byte: *first })
            }
        }
    }
}

/// A length-encoded integer.
#[tactic(auto, unfolding(crate::specs::Fields::lenenc_at))]
pub fn lenenc_at(bytes: &[u8]) -> Result<(u64, &[u8]), MsgFault>
    ensures { Reads (λ x. (x.0, x.1.now)) result (lenenc_at bytes.now) }
{
    match split_lenenc(bytes) {
        Ok((value, rest)) => Ok((value, rest)),
        Err(LenencFault::Short) => Err(MsgFault::Short),
        Err(LenencFault::NoInteger) => Err(MsgFault::BadLenenc),
    }
}

/// The length-encoded text that the bytes begin with, and the bytes behind it ("Protocol Data Types", length-encoded
/// strings). The only errors are `Short` and `BadLenenc`.
#[tactic(auto, unfolding(crate::specs::Fields::text_at))]
pub fn split_text(bytes: &[u8]) -> Result<(&[u8], &[u8]), MsgFault>
    ensures { Reads (λ x. (x.0.now, x.1.now)) result (text_at bytes.now) }
{
    let (size, rest) = lenenc_at(bytes)?;
    bytes_at(size as usize, rest)
}

/// A text up to a zero byte, and what stands behind that.
pub fn zero_text_at(bytes: &[u8]) -> Result<(&[u8], &[u8]), MsgFault>
    ensures reads { Reads (λ x. (x.0.now, x.1.now)) result (zero_text_at bytes.now) }
    ensures no_zero { IfOk result (λ x. HasNoZero x.0.now) }
    ensures all { OnErr result (HasNoZero bytes.now) }
{
    'bytes: for i in 0..bytes.len() {
        if bytes[i] == 0 {
            return Ok((&bytes[..i], &bytes[i + 1..]));
        }
    }
    Err(MsgFault::Short)
}

/// A text up to a zero byte or, where there is none, to the end.
#[tactic(auto, unfolding(crate::specs::Fields::last_text_at))]
pub fn last_text_at(bytes: &[u8]) -> (&[u8], &[u8])
    ensures text { result.0.now ≡ (last_text_at bytes.now).0 }
    ensures behind { result.1.now ≡ (last_text_at bytes.now).1 }
    ensures no_zero { HasNoZero result.0.now }
{
    match zero_text_at(bytes) {
        Ok(split) => split,
        Err(_) => (bytes, &[]),
    }
}

/// Nothing is left.
#[tactic(auto, unfolding(crate::specs::Fields::ended))]
pub fn end(bytes: &[u8]) -> Result<(), MsgFault>
    ensures { Reads (λ x. x) result (ended tt bytes.now) }
{
    if bytes.is_empty() {
        Ok(())
    } else {
        Err(MsgFault::Trailing)
    }
}
