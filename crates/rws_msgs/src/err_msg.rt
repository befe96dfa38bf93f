//! The error of a reply ("ERR_Packet").
ghost use Rattle.std.specs.Prelude.{◌≡◌, ◌++◌, Ok, length, take, OnOk, OnErr};
ghost use Rattle.rws_msgs.specs.ErrLayout.{ErrFits, err_at, err_bytes, err_code};
ghost use Rattle.rws_msgs.specs.ErrParts.{err_of};
ghost use Rattle.rws_msgs.specs.Decoding.{IsDecoded};
ghost use Rattle.rws_wire.specs.Reading.{Reads};

use crate::MsgFault;
use crate::fields::{array_at, fixed_at, u16_at};
use crate::writing::{or_cut, put_u16};
use rws_wire::Text;
use std::alloc::{AllocError, Global};

/// What stands in front of the state.
const STATE_MARK: u8 = b'#';

/// ERR_Packet: a command was refused or broke off. Read and written with `#` and a state, as between sides that
/// have CLIENT_PROTOCOL_41.
#[derive(Debug, PartialEq, Eq, Drop)]
pub struct ErrMsg {
    /// MariaDB's error number.
    pub code: u16,
    /// SQLSTATE, five characters.
    pub state: [u8; 5],
    /// What is wrong, for people.
    pub text: Text,
}

/// The fields, before a text is copied.
#[derive(Clone, Copy)]
struct Parts<'a> {
    code: u16,
    state: [u8; 5],
    text: &'a [u8],
}

/// The error that the payload is.
#[tactic(auto, unfolding(crate::specs::ErrLayout::err_at))]
fn parts_of(payload: &[u8]) -> Result<Parts<'_>, MsgFault>
    ensures { Reads err_of result (err_at payload.now) }
{
    let rest = fixed_at(0xFF, payload)?;
    let (code, rest) = u16_at(rest)?;
    let rest = fixed_at(STATE_MARK, rest)?;
    let (state, text) = array_at::<5>(rest)?;
    Ok(Parts { code, state, text })
}

/// The code of an error, read without memory. None where the payload isn't one.
#[tactic(auto, unfolding(crate::specs::ErrLayout::err_code))]
pub fn err_code(payload: &[u8]) -> Option<u16>
    ensures { result ≡ err_code payload.now }
{
    match parts_of(payload) {
        Ok(parts) => Some(parts.code),
        Err(_) => None,
    }
}

impl ErrMsg {
    /// The error in a payload.
    #[tactic(auto, using(crate::proofs::MemoryLemmas::err_never))]
    pub fn decode(alloc: Global, payload: &[u8]) -> Result<ErrMsg, MsgFault>
        ensures { IsDecoded result (err_at payload.now) }
    {
        let parts = parts_of(payload)?;
        Ok(ErrMsg {
            code: parts.code,
            state: parts.state,
            text: Text::from_slice(alloc, parts.text)?,
        })
    }

    /// Appends the payload. `Err` leaves `out` as it was.
    #[tactic(auto, using(crate::proofs::ErrLemmas::err_again))]
    pub fn encode(&self, out: &mut Vec<u8>) -> Result<(), AllocError>
        ensures ok { OnOk result (out.new.items ≡ out.old.items ++ err_bytes self.now) }
        ensures err { OnErr result (out.new.items ≡ out.old.items) }

        // It is decoded again.
        ensures again { err_at (err_bytes self.now) ≡ Ok self.now }
    {
        let before = out.len();
        or_cut(self.put(out), before, out)
    }

    /// Appends the payload; after an `Err` some of it may stand there.
    #[tactic(auto, unfolding(crate::specs::ErrLayout::err_bytes))]
    fn put(&self, out: &mut Vec<u8>) -> Result<(), AllocError>
        ensures ok { OnOk result (out.new.items ≡ out.old.items ++ err_bytes self.now) }
        ensures err { OnErr result (take (length out.old.items) out.new.items ≡ out.old.items) }
        ensures fits { ErrFits self.now }
    {
        let code = self.code;
        out.push(0xFF)?;
        put_u16(code, out)?;
        out.push(STATE_MARK)?;
        out.extend_from_slice(&self.state)?;
        out.extend_from_slice(self.text.as_slice())
    }
}
