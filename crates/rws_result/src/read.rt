//! Reads a result set whole: first its parts are found and looked at, without memory, and then copied.
ghost use Rattle.rws_result.specs.Answers.{IsRead};
ghost use Rattle.rws_result.specs.ResultSets.{result_set};

use crate::parts::parts_of;
use crate::{ReadFault, Rows};
use rws_wire::PayloadList;
use std::alloc::Global;

/// The result set that these payloads are, read whole. `OutOfMemory` comes only where they are one.
///
/// The payloads are those of the reply to a COM_QUERY, on a link without CLIENT_DEPRECATE_EOF; two result sets, an ERR, or
/// anything behind the last EOF make them no result set.
#[tactic(auto, unfolding(crate::specs::ResultSets::result_set))]
pub fn read_rows(alloc: Global, payloads: &PayloadList) -> Result<Rows, ReadFault>
    ensures { IsRead result (result_set payloads.now) }
{
    let Some(parts) = parts_of(payloads.as_slice()) else {
        return Err(ReadFault::NotAResult);
    };
    if !parts.is_readable() {
        return Err(ReadFault::NotAResult);
    }
    let names = parts.names(alloc)?;
    let rows = parts.rows(alloc)?;
    Ok(Rows { names, rows })
}
