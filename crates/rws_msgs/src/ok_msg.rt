//! The OK of a reply ("OK_Packet"). Which texts stand at its end is said by its status and by what both sides can.
ghost use Rattle.std.specs.Prelude.{◌≡◌, ◌++◌, false, [], Ok, length, take, OnOk, OnErr, IfOk};
ghost use Rattle.rws_msgs.specs.OkLayout.{IsOkMsg, OkFits, ok_at, ok_bytes, ok_status, state_at, texts_at, texts_bytes};
ghost use Rattle.rws_msgs.specs.OkParts.{ok_of};
ghost use Rattle.rws_msgs.specs.Decoding.{IsDecoded};
ghost use Rattle.rws_wire.specs.Reading.{Reads};

use crate::MsgFault;
use crate::fields::{end, fixed_at, lenenc_at, split_text, u16_at};
use crate::status::SESSION_STATE_CHANGED;
use crate::writing::{or_cut, put_text, put_u16};
use rws_wire::{Text, put_lenenc};
use std::alloc::{AllocError, Global};

/// OK_Packet: a command was carried out.
#[derive(Debug, PartialEq, Eq, Drop)]
pub struct OkMsg {
    /// How many rows were changed.
    pub affected: u64,
    /// The last insert id: the first value that AUTO_INCREMENT made, one that was given explicitly, or that of
    /// LAST_INSERT_ID(expr). 0 where there is none.
    pub insert_id: u64,
    /// The server's status bits, as `status` names them.
    pub status: u16,
    /// How many warnings the command left.
    pub warnings: u16,
    /// A text for people, as `Rows matched: 1`. Empty where there is none.
    pub info: Text,
    /// The changes of the session's state, as they stand in the message. Empty where there are none.
    pub state: Text,
}

/// The fields, before texts are copied.
#[derive(Clone, Copy)]
struct Parts<'a> {
    affected: u64,
    insert_id: u64,
    status: u16,
    warnings: u16,
    info: &'a [u8],
    state: &'a [u8],
}

/// The state, where one is to stand.
#[tactic(auto, unfolding(crate::specs::OkLayout::state_at))]
fn state_of(stated: bool, bytes: &[u8]) -> Result<(&[u8], &[u8]), MsgFault>
    ensures reads { Reads (λ x. (x.0.now, x.1.now)) result (state_at stated bytes.now) }
    ensures none { IfOk result (λ x. stated ≡ false → x.0.now ≡ []) }
{
    if stated {
        split_text(bytes)
    } else {
        Ok((&[], bytes))
    }
}

/// The info and the state, which may be left out together.
#[tactic(auto, unfolding(crate::specs::OkLayout::texts_at, crate::specs::Fields::ended))]
fn texts_of(stated: bool, bytes: &[u8]) -> Result<(&[u8], &[u8]), MsgFault>
    ensures reads { Reads (λ x. (x.0.now, x.1.now)) result (texts_at stated bytes.now) }
    ensures none { IfOk result (λ x. stated ≡ false → x.1.now ≡ []) }
{
    if bytes.is_empty() {
        return Ok((&[], &[]));
    }
    let (info, rest) = split_text(bytes)?;
    let (state, rest) = state_of(stated, rest)?;
    end(rest)?;
    Ok((info, state))
}

/// The OK that the payload is.
#[tactic(auto, unfolding(crate::specs::OkLayout::ok_at))]
fn parts_of(payload: &[u8], track: bool) -> Result<Parts<'_>, MsgFault>
    ensures reads { Reads ok_of result (ok_at track payload.now) }
    ensures is { IfOk result (λ parts. IsOkMsg track (ok_of parts)) }
{
    let rest = fixed_at(0x00, payload)?;
    let (affected, rest) = lenenc_at(rest)?;
    let (insert_id, rest) = lenenc_at(rest)?;
    let (status, rest) = u16_at(rest)?;
    let (warnings, rest) = u16_at(rest)?;
    let (info, state) = texts_of(track && status & SESSION_STATE_CHANGED != 0, rest)?;
    Ok(Parts {
        affected,
        insert_id,
        status,
        warnings,
        info,
        state,
    })
}

/// The status of an OK, read without memory. None where the payload isn't one. `track` says that both sides
/// have CLIENT_SESSION_TRACK.
#[tactic(auto, unfolding(crate::specs::OkLayout::ok_status))]
pub fn ok_status(payload: &[u8], track: bool) -> Option<u16>
    ensures { result ≡ ok_status track payload.now }
{
    match parts_of(payload, track) {
        Ok(parts) => Some(parts.status),
        Err(_) => None,
    }
}

impl OkMsg {
    /// The OK in a payload. `track` says that both sides have CLIENT_SESSION_TRACK.
    #[tactic(auto, using(crate::proofs::MemoryLemmas::ok_never))]
    pub fn decode(alloc: Global, payload: &[u8], track: bool) -> Result<OkMsg, MsgFault>
        ensures gives { IsDecoded result (ok_at track payload.now) }
        ensures is { IfOk result (λ ok. IsOkMsg track ok) }
    {
        let parts = parts_of(payload, track)?;
        Ok(OkMsg {
            affected: parts.affected,
            insert_id: parts.insert_id,
            status: parts.status,
            warnings: parts.warnings,
            info: Text::from_slice(alloc, parts.info)?,
            state: Text::from_slice(alloc, parts.state)?,
        })
    }

    /// Appends the payload. A state is to be written where `track` is set and the status has SESSION_STATE_CHANGED: then
    /// the info and the state are written, and neither where both are empty. Without one the info alone is written, and
    /// nothing where it is empty: a state that the message holds then isn't read back. `Err` leaves `out` as it was.
    #[tactic(auto, using(crate::proofs::OkLemmas::ok_again))]
    pub fn encode(&self, track: bool, out: &mut Vec<u8>) -> Result<(), AllocError>
        ensures ok { OnOk result (out.new.items ≡ out.old.items ++ ok_bytes track self.now) }
        ensures err { OnErr result (out.new.items ≡ out.old.items) }

        // It is decoded again where it has no state that isn't written.
        ensures again { IsOkMsg track self.now → ok_at track (ok_bytes track self.now) ≡ Ok self.now }
    {
        let before = out.len();
        or_cut(self.put(track, out), before, out)
    }

    /// Appends the payload; after an `Err` some of it may stand there.
    #[tactic(auto, unfolding(crate::specs::OkLayout::ok_bytes))]
    fn put(&self, track: bool, out: &mut Vec<u8>) -> Result<(), AllocError>
        ensures ok { OnOk result (out.new.items ≡ out.old.items ++ ok_bytes track self.now) }
        ensures err { OnErr result (take (length out.old.items) out.new.items ≡ out.old.items) }
        ensures fits { OkFits self.now }
    {
        let (affected, insert_id) = (self.affected, self.insert_id);
        let (status, warnings) = (self.status, self.warnings);
        let (info, state) = (self.info.as_slice(), self.state.as_slice());
        out.push(0x00)?;
        put_lenenc(affected, out)?;
        put_lenenc(insert_id, out)?;
        put_u16(status, out)?;
        put_u16(warnings, out)?;
        put_texts(
            track && status & SESSION_STATE_CHANGED != 0,
            info,
            state,
            out,
        )
    }
}

/// Appends the info and the state, or neither.
#[tactic(auto, unfolding(crate::specs::OkLayout::texts_bytes))]
fn put_texts(stated: bool, info: &[u8], state: &[u8], out: &mut Vec<u8>) -> Result<(), AllocError>
    ensures ok { OnOk result (out.new.items ≡ out.old.items ++ texts_bytes stated info.now state.now) }
    ensures err { OnErr result (take (length out.old.items) out.new.items ≡ out.old.items) }
{
    if info.is_empty() && (!stated || state.is_empty()) {
        return Ok(());
    }
    put_text(info, out)?;
    if stated {
        return put_text(state, out);
    }
    Ok(())
}
