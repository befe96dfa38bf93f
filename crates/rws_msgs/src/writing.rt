//! The fields of messages, appended. What a message that broke off left behind is cut off by the caller, once.
ghost use Rattle.std.specs.Prelude.{◌≡◌, ◌++◌, length, take, OnOk, OnErr};
ghost use Rattle.rws_msgs.specs.Fields.{text_bytes};
ghost use Rattle.rws_wire.specs.Numbers.{bytes_of};

use rws_wire::put_lenenc;
use std::alloc::AllocError;

/// Appends a number in two bytes.
pub fn put_u16(number: u16, out: &mut Vec<u8>) -> Result<(), AllocError>
    ensures ok { OnOk result (out.new.items ≡ out.old.items ++ bytes_of 2 number) }
    ensures err { OnErr result (out.new.items ≡ out.old.items) }
{
    out.extend_from_slice(&number.to_le_bytes())
}

/// Appends a number in four bytes.
pub fn put_u32(number: u32, out: &mut Vec<u8>) -> Result<(), AllocError>
    ensures ok { OnOk result (out.new.items ≡ out.old.items ++ bytes_of 4 number) }
    ensures err { OnErr result (out.new.items ≡ out.old.items) }
{
    out.extend_from_slice(&number.to_le_bytes())
}

/// Appends a length-encoded text. After an `Err` some of it may stand there.
#[tactic(auto, unfolding(crate::specs::Fields::text_bytes))]
pub fn put_text(text: &[u8], out: &mut Vec<u8>) -> Result<(), AllocError>
    ensures ok { OnOk result (out.new.items ≡ out.old.items ++ text_bytes text.now) }
    ensures err { OnErr result (take (length out.old.items) out.new.items ≡ out.old.items) }
{
    put_lenenc(text.len() as u64, out)?;
    out.extend_from_slice(text)
}

/// Cuts off what a message that broke off left behind the first `before` bytes.
pub fn or_cut(
    written: Result<(), AllocError>,
    before: usize,
    out: &mut Vec<u8>,
) -> Result<(), AllocError>
    ensures same { result ≡ written }
    ensures ok { OnOk written (out.new.items ≡ out.old.items) }
    ensures err { OnErr written (out.new.items ≡ take before out.old.items) }
{
    if written.is_err() {
        out.truncate(before);
    }
    written
}
