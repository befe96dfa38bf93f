//! The first packet of a reply to COM_STMT_PREPARE ("COM_STMT_PREPARE", COM_STMT_PREPARE response).
ghost use Rattle.std.specs.Prelude.{◌≡◌, ◌++◌, Ok, OnOk, OnErr};
ghost use Rattle.rws_msgs.specs.PrepareOkLayout.{PrepareOkFits, prepare_ok_at, prepare_ok_bytes};
ghost use Rattle.rws_wire.specs.Reading.{Reads};

use crate::MsgFault;
use crate::fields::{end, fixed_at, u16_at, u32_at};
use std::alloc::AllocError;

/// COM_STMT_PREPARE response: a statement was prepared. The definitions of its parameters and columns follow.
#[derive(Clone, Copy, Debug, PartialEq, Eq)]
pub struct PrepareOk {
    /// The statement's id on its link.
    pub id: u32,
    /// How many columns its result has.
    pub columns: u16,
    /// How many parameters it takes.
    pub parameters: u16,
    /// How many warnings the command left.
    pub warnings: u16,
}

impl PrepareOk {
    /// The answer in a payload, which takes no memory.
    #[tactic(auto, unfolding(crate::specs::PrepareOkLayout::prepare_ok_at, crate::specs::Fields::ended))]
    pub fn decode(payload: &[u8]) -> Result<PrepareOk, MsgFault>
        ensures { Reads (λ ok. ok) result (prepare_ok_at payload.now) }
    {
        let rest = fixed_at(0x00, payload)?;
        let (id, rest) = u32_at(rest)?;
        let (columns, rest) = u16_at(rest)?;
        let (parameters, rest) = u16_at(rest)?;
        let rest = fixed_at(0x00, rest)?;
        let (warnings, rest) = u16_at(rest)?;
        end(rest)?;
        Ok(PrepareOk {
            id,
            columns,
            parameters,
            warnings,
        })
    }

    /// Appends the payload. `Err` leaves `out` as it was.
    #[tactic(auto, using(crate::proofs::PrepareOkLemmas::prepare_ok_again))]
    pub fn encode(&self, out: &mut Vec<u8>) -> Result<(), AllocError>
        ensures ok { OnOk result (out.new.items ≡ out.old.items ++ prepare_ok_bytes self.now) }
        ensures err { OnErr result (out.new.items ≡ out.old.items) }

        // It is decoded again.
        ensures again { prepare_ok_at (prepare_ok_bytes self.now) ≡ Ok self.now }
    {
        self.put(out)
    }

    /// Appends the payload, without what is said of decoding it.
    #[tactic(auto, unfolding(crate::specs::PrepareOkLayout::prepare_ok_bytes))]
    fn put(&self, out: &mut Vec<u8>) -> Result<(), AllocError>
        ensures ok { OnOk result (out.new.items ≡ out.old.items ++ prepare_ok_bytes self.now) }
        ensures err { OnErr result (out.new.items ≡ out.old.items) }
        ensures fits { PrepareOkFits self.now }
    {
        let (id, columns) = (self.id, self.columns);
        let (parameters, warnings) = (self.parameters, self.warnings);
        let [a, b, c, d] = id.to_le_bytes();
        let [e, f] = columns.to_le_bytes();
        let [g, h] = parameters.to_le_bytes();
        let [i, j] = warnings.to_le_bytes();
        out.extend_from_slice(&[0x00, a, b, c, d, e, f, g, h, 0x00, i, j])
    }
}
