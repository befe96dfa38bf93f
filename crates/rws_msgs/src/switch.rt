//! The question for another authentication plugin ("Connection", Authentication Switch Request).
ghost use Rattle.std.specs.Prelude.{◌≡◌, ◌++◌, Ok, OnOk, OnErr, IfOk, length, take};
ghost use Rattle.rws_msgs.specs.Fields.{HasNoZero};
ghost use Rattle.rws_msgs.specs.Decoding.{IsDecoded};
ghost use Rattle.rws_wire.specs.Reading.{Reads};
ghost use Rattle.std.specs.Option.{option_map};
ghost use Rattle.rws_msgs.specs.SwitchLayout.{asked_at, plugin_asked, switch_at, switch_bytes};
ghost use Rattle.rws_msgs.specs.SwitchParts.{switch_of};

use crate::MsgFault;
use crate::fields::{array_at, end, fixed_at, zero_text_at};
use crate::writing::or_cut;
use rws_wire::Text;
use std::alloc::{AllocError, Global};

/// Authentication Switch Request: the side that asks for a login wants an answer by another plugin, one that takes a
/// scramble of 20 bytes with a zero byte behind it, as mysql_native_password does. Other plugins' data is refused, as
/// `Short`, `BadTag` or `Trailing`.
#[derive(Debug, PartialEq, Eq, Drop)]
pub struct Switch {
    /// The plugin's name.
    pub plugin: Text,
    /// The bytes that the answer is made for.
    pub scramble: [u8; 20],
}

/// The fields, before the name is copied.
#[derive(Clone, Copy)]
struct Parts<'a> {
    plugin: &'a [u8],
    scramble: [u8; 20],
}

/// The plugin's name at the front, and its data behind that.
#[tactic(auto, unfolding(crate::specs::SwitchLayout::asked_at))]
fn asked(payload: &[u8]) -> Result<(&[u8], &[u8]), MsgFault>
    ensures { Reads (λ x. (x.0.now, x.1.now)) result (asked_at payload.now) }
{
    let behind = fixed_at(0xFE, payload)?;
    zero_text_at(behind)
}

/// The switch that the payload is.
#[tactic(auto, unfolding(crate::specs::SwitchLayout::switch_at, crate::specs::Fields::ended))]
fn parts_of(payload: &[u8]) -> Result<Parts<'_>, MsgFault>
    ensures reads { Reads switch_of result (switch_at payload.now) }
    ensures no_zero { IfOk result (λ parts. HasNoZero parts.plugin.now) }
{
    let rest = fixed_at(0xFE, payload)?;
    let (plugin, rest) = zero_text_at(rest)?;
    let (scramble, rest) = array_at::<20>(rest)?;
    let last = fixed_at(0x00, rest)?;
    end(last)?;
    Ok(Parts { plugin, scramble })
}

impl Switch {
    /// The name of the plugin that a payload asks for, whatever data stands behind it; `None` where the payload doesn't
    /// begin with 0xFE, a name and a zero byte. It takes no memory.
    #[tactic(auto, unfolding(crate::specs::SwitchLayout::plugin_asked))]
    pub fn plugin_of(payload: &[u8]) -> Option<&[u8]>
        ensures { option_map (λ plugin. plugin.now) result ≡ plugin_asked payload.now }
    {
        match asked(payload) {
            Ok((plugin, _)) => Some(plugin),
            Err(_) => None,
        }
    }

    /// The switch in a payload.
    #[tactic(auto, using(crate::proofs::MemoryLemmas::switch_never))]
    pub fn decode(alloc: Global, payload: &[u8]) -> Result<Switch, MsgFault>
        ensures gives { IsDecoded result (switch_at payload.now) }
        ensures no_zero { IfOk result (λ switch. HasNoZero switch.plugin) }
    {
        let parts = parts_of(payload)?;
        Ok(Switch {
            plugin: Text::from_slice(alloc, parts.plugin)?,
            scramble: parts.scramble,
        })
    }

    /// Appends the payload. What is written isn't read back where a zero byte stands in the plugin's name. `Err` leaves
    /// `out` as it was.
    #[tactic(auto, using(crate::proofs::SwitchLemmas::switch_again))]
    pub fn encode(&self, out: &mut Vec<u8>) -> Result<(), AllocError>
        ensures ok { OnOk result (out.new.items ≡ out.old.items ++ switch_bytes self.now) }
        ensures err { OnErr result (out.new.items ≡ out.old.items) }

        // It is decoded again where the plugin's name has no zero byte.
        ensures again { HasNoZero self.now.plugin → switch_at (switch_bytes self.now) ≡ Ok self.now }
    {
        let before = out.len();
        or_cut(self.put(out), before, out)
    }

    /// Appends the payload; after an `Err` some of it may stand there.
    #[tactic(auto, unfolding(crate::specs::SwitchLayout::switch_bytes))]
    fn put(&self, out: &mut Vec<u8>) -> Result<(), AllocError>
        ensures ok { OnOk result (out.new.items ≡ out.old.items ++ switch_bytes self.now) }
        ensures err { OnErr result (take (length out.old.items) out.new.items ≡ out.old.items) }
        ensures fits { length self.now.scramble ≡ 20 }
    {
        out.push(0xFE)?;
        out.extend_from_slice(self.plugin.as_slice())?;
        out.push(0x00)?;
        out.extend_from_slice(&self.scramble)?;
        out.push(0x00)?;
        Ok(())
    }
}
