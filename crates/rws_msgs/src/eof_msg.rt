//! The end of a list of definitions or rows ("EOF_Packet").
ghost use Rattle.std.specs.Prelude.{◌≡◌, ◌++◌, Ok, OnOk, OnErr};
ghost use Rattle.rws_msgs.specs.EofLayout.{EofFits, eof_at, eof_bytes};
ghost use Rattle.rws_wire.specs.Reading.{Reads};

use crate::MsgFault;
use crate::fields::{end, fixed_at, u16_at};
use std::alloc::AllocError;

/// EOF_Packet: column definitions or rows have ended.
#[derive(Clone, Copy, Debug, PartialEq, Eq)]
pub struct EofMsg {
    /// How many warnings the command left.
    pub warnings: u16,
    /// The server's status bits, as in an `OkMsg`.
    pub status: u16,
}

impl EofMsg {
    /// The EOF in a payload, which takes no memory.
    #[tactic(auto, unfolding(crate::specs::EofLayout::eof_at, crate::specs::Fields::ended))]
    pub fn decode(payload: &[u8]) -> Result<EofMsg, MsgFault>
        ensures { Reads (λ eof. eof) result (eof_at payload.now) }
    {
        let rest = fixed_at(0xFE, payload)?;
        let (warnings, rest) = u16_at(rest)?;
        let (status, rest) = u16_at(rest)?;
        end(rest)?;
        Ok(EofMsg { warnings, status })
    }

    /// Appends the payload. `Err` leaves `out` as it was.
    #[tactic(auto, using(crate::proofs::EofLemmas::eof_again))]
    pub fn encode(&self, out: &mut Vec<u8>) -> Result<(), AllocError>
        ensures ok { OnOk result (out.new.items ≡ out.old.items ++ eof_bytes self.now) }
        ensures err { OnErr result (out.new.items ≡ out.old.items) }

        // It is decoded again.
        ensures again { eof_at (eof_bytes self.now) ≡ Ok self.now }
    {
        self.put(out)
    }

    /// Appends the payload, without what is said of decoding it.
    #[tactic(auto, unfolding(crate::specs::EofLayout::eof_bytes))]
    fn put(&self, out: &mut Vec<u8>) -> Result<(), AllocError>
        ensures ok { OnOk result (out.new.items ≡ out.old.items ++ eof_bytes self.now) }
        ensures err { OnErr result (out.new.items ≡ out.old.items) }
        ensures fits { EofFits self.now }
    {
        let (warnings, status) = (self.warnings, self.status);
        let [a, b] = warnings.to_le_bytes();
        let [c, d] = status.to_le_bytes();
        out.extend_from_slice(&[0xFE, a, b, c, d])
    }
}
