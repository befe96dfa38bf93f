//! The call of a prepared statement ("COM_STMT_EXECUTE"). Its fields stand in one place or another by the number of
//! parameters, which the message itself doesn't tell.
ghost use Rattle.std.specs.Prelude.{◌≡◌, ◌++◌, ℕ, Ok, OnOk, OnErr, IfOk, length, take};
ghost use Rattle.std.specs.Option.{option_map};
ghost use Rattle.rws_msgs.specs.ExecuteLayout.{AreValues, ExecuteFits, HaveSize, IsExecuteHead, execute_at, execute_bytes, once_at, types_at, types_bytes, values_at, values_bytes};
ghost use Rattle.rws_msgs.specs.ExecuteParts.{execute_of};
ghost use Rattle.rws_msgs.specs.Decoding.{IsDecoded};
ghost use Rattle.rws_wire.specs.Reading.{Reads};

use crate::MsgFault;
use crate::command::COM_STMT_EXECUTE;
use crate::fields::{bytes_at, fixed_at, u8_at, u32_at};
use crate::writing::{or_cut, put_u32};
use rws_wire::Text;
use std::alloc::{AllocError, Global};

/// COM_STMT_EXECUTE, split where a proxy looks at it.
#[derive(Debug, PartialEq, Eq, Drop)]
pub struct ExecuteHead {
    /// The statement's id on its link.
    pub id: u32,
    /// 0, or the kind of cursor that is asked for.
    pub flags: u8,
    /// One bit a parameter: whether it is NULL. Empty for a statement without parameters.
    pub bitmap: Text,
    /// Two bytes a parameter, where the types are sent along.
    pub types: Option<Text>,
    /// The values of the parameters that aren't NULL, one after another.
    pub values: Text,
}

/// A COM_STMT_EXECUTE whose parts stand in bytes that another holds, so it is split and written without a copy. Its
/// fields are those of `ExecuteHead`.
#[derive(Clone, Copy)]
pub struct ExecuteParts<'a> {
    /// The statement's id on its link.
    pub id: u32,
    /// 0, or the kind of cursor that is asked for.
    pub flags: u8,
    /// One bit a parameter: whether it is NULL.
    pub bitmap: &'a [u8],
    /// Two bytes a parameter, where the types are sent along.
    pub types: Option<&'a [u8]>,
    /// The values of the parameters that aren't NULL, one after another.
    pub values: &'a [u8],
}

/// What stands behind the number of iterations, which is 1.
#[tactic(auto, unfolding(crate::specs::ExecuteLayout::once_at))]
fn once_at(bytes: &[u8]) -> Result<&[u8], MsgFault>
    ensures { Reads (λ rest. rest.now) result (once_at bytes.now) }
{
    let rest = fixed_at(0x01, bytes)?;
    let rest = fixed_at(0x00, rest)?;
    let rest = fixed_at(0x00, rest)?;
    fixed_at(0x00, rest)
}

/// The types, where the byte in front says that they follow, and the values behind them.
#[tactic(auto, unfolding(crate::specs::ExecuteLayout::types_at))]
fn types_of(parameters: u16, bytes: &[u8]) -> Result<(Option<&[u8]>, &[u8]), MsgFault>
    ensures reads { Reads (λ x. (option_map (λ types. types.now) x.0, x.1.now)) result (types_at parameters bytes.now) }
    ensures size { IfOk result (λ x. HaveSize parameters (option_map (λ types. types.now) x.0)) }
{
    match bytes {
        [] => Err(MsgFault::Short),
        [0, rest @ ..] => Ok((None, rest)),
        [1, rest @ ..] => {
            let (types, values) = bytes_at(2 * usize::from(parameters), rest)?;
            Ok((Some(types), values))
        }
        [given, ..] => Err(MsgFault::BadTag { byte: *given }),
    }
}

/// The bitmap, the types and the values.
#[derive(Clone, Copy)]
struct Values<'a> {
    bitmap: &'a [u8],
    types: Option<&'a [u8]>,
    values: &'a [u8],
}

/// The bitmap, the types and the values, of which a statement without parameters has none.
#[tactic(auto, unfolding(crate::specs::ExecuteLayout::values_at))]
fn values_of(parameters: u16, bytes: &[u8]) -> Result<Values<'_>, MsgFault>
    ensures reads { Reads (λ v. (v.bitmap.now, (option_map (λ types. types.now) v.types, v.values.now))) result (values_at parameters bytes.now) }
    ensures are { IfOk result (λ v. AreValues parameters v.bitmap.now (option_map (λ types. types.now) v.types) v.values.now) }
{
    if parameters == 0 {
        return Ok(Values {
            bitmap: &[],
            types: None,
            values: &[],
        });
    }
    let (bitmap, rest) = bytes_at(usize::from(parameters).div_ceil(8), bytes)?;
    let (types, values) = types_of(parameters, rest)?;
    Ok(Values {
        bitmap,
        types,
        values,
    })
}

impl<'a> ExecuteParts<'a> {
    /// The parts of the execute in a payload, of a statement with so many parameters. It takes no memory.
    #[tactic(auto, unfolding(crate::specs::ExecuteLayout::execute_at))]
    pub fn split(payload: &'a [u8], parameters: u16) -> Result<ExecuteParts<'a>, MsgFault>
        ensures reads { Reads execute_of result (execute_at parameters payload.now) }
        ensures is { IfOk result (λ parts. IsExecuteHead parameters (execute_of parts)) }
    {
        let rest = fixed_at(COM_STMT_EXECUTE, payload)?;
        let (id, rest) = u32_at(rest)?;
        let (flags, rest) = u8_at(rest)?;
        let behind = once_at(rest)?;
        let given = values_of(parameters, behind)?;
        Ok(ExecuteParts {
            id,
            flags,
            bitmap: given.bitmap,
            types: given.types,
            values: given.values,
        })
    }

    /// Appends the payload, as `ExecuteHead::encode` does. `Err` leaves `out` as it was.
    pub fn encode(&self, out: &mut Vec<u8>) -> Result<(), AllocError>
        ensures ok { OnOk result (out.new.items ≡ out.old.items ++ execute_bytes (execute_of self.now)) }
        ensures err { OnErr result (out.new.items ≡ out.old.items) }
        ensures fits { ExecuteFits (execute_of self.now) }
    {
        let before = out.len();
        or_cut(self.put(out), before, out)
    }

    /// Appends the payload; after an `Err` some of it may stand there.
    #[tactic(auto, unfolding(crate::specs::ExecuteLayout::execute_bytes))]
    fn put(&self, out: &mut Vec<u8>) -> Result<(), AllocError>
        ensures ok { OnOk result (out.new.items ≡ out.old.items ++ execute_bytes (execute_of self.now)) }
        ensures err { OnErr result (take (length out.old.items) out.new.items ≡ out.old.items) }
        ensures fits { ExecuteFits (execute_of self.now) }
    {
        let (id, flags) = (self.id, self.flags);
        out.push(COM_STMT_EXECUTE)?;
        put_u32(id, out)?;
        out.extend_from_slice(&[flags, 0x01, 0x00, 0x00, 0x00])?;
        self.put_values(out)
    }

    /// Appends the bitmap, the types and the values.
    #[tactic(auto, unfolding(crate::specs::ExecuteLayout::values_bytes))]
    fn put_values(&self, out: &mut Vec<u8>) -> Result<(), AllocError>
        ensures ok { OnOk result (out.new.items ≡ out.old.items ++ values_bytes self.now.bitmap.now (execute_of self.now).types self.now.values.now) }
        ensures err { OnErr result (take (length out.old.items) out.new.items ≡ out.old.items) }
    {
        if self.bitmap.is_empty() {
            return Ok(());
        }
        out.extend_from_slice(self.bitmap)?;
        self.put_types(out)?;
        out.extend_from_slice(self.values)
    }

    /// Appends the byte that says whether types follow, and the types.
    #[tactic(auto, unfolding(crate::specs::ExecuteLayout::types_bytes))]
    fn put_types(&self, out: &mut Vec<u8>) -> Result<(), AllocError>
        ensures ok { OnOk result (out.new.items ≡ out.old.items ++ types_bytes (execute_of self.now).types) }
        ensures err { OnErr result (take (length out.old.items) out.new.items ≡ out.old.items) }
    {
        match self.types {
            None => {
                out.push(0x00)?;
                Ok(())
            }
            Some(types) => {
                out.push(0x01)?;
                out.extend_from_slice(types)
            }
        }
    }
}

impl ExecuteHead {
    /// The execute in a payload, of a statement with so many parameters.
    #[tactic(auto, using(crate::proofs::MemoryLemmas::execute_never))]
    pub fn decode(alloc: Global, payload: &[u8], parameters: u16) -> Result<ExecuteHead, MsgFault>
        ensures gives { IsDecoded result (execute_at parameters payload.now) }
        ensures is { IfOk result (λ head. IsExecuteHead parameters head) }
    {
        let parts = ExecuteParts::split(payload, parameters)?;
        let types = match parts.types {
            Some(types) => Some(Text::from_slice(alloc, types)?),
            None => None,
        };
        Ok(ExecuteHead {
            id: parts.id,
            flags: parts.flags,
            bitmap: Text::from_slice(alloc, parts.bitmap)?,
            types,
            values: Text::from_slice(alloc, parts.values)?,
        })
    }

    /// Appends the payload. Without a bitmap neither types nor values are written. What is written isn't read back for a
    /// number of parameters for which the bitmap or the types haven't the size, or where types or values stand without a
    /// bitmap. `Err` leaves `out` as it was.
    #[tactic(auto, using(crate::proofs::ExecuteLemmas::execute_again))]
    pub fn encode(&self, out: &mut Vec<u8>) -> Result<(), AllocError>
        ensures ok { OnOk result (out.new.items ≡ out.old.items ++ execute_bytes self.now) }
        ensures err { OnErr result (out.new.items ≡ out.old.items) }

        // It is decoded again where the bitmap, the types and the values go with the number of parameters.
        ensures again { (parameters : ℕ) → IsExecuteHead parameters self.now
            → execute_at parameters (execute_bytes self.now) ≡ Ok self.now }
    {
        self.parts().encode(out)
    }

    /// The same fields, looked at.
    fn parts(&self) -> ExecuteParts<'_>
        ensures { execute_of result ≡ self.now }
    {
        ExecuteParts {
            id: self.id,
            flags: self.flags,
            bitmap: self.bitmap.as_slice(),
            types: self.types.as_ref().map(Text::as_slice),
            values: self.values.as_slice(),
        }
    }
}
