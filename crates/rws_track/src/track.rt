//! The GTID that an OK names, and the form of an OK for a client that doesn't track the session's state.

ghost use Rattle.std.specs.Prelude.{◌≡◌, List, IfOk, IsSome};
ghost use Rattle.rws_track.specs.State.{Variable, Shows, last_gtid};
ghost use Rattle.rws_track.specs.Client.{client_form};

use crate::state::last_in_state;
use rws_gtid::Gtid;
use rws_msgs::OkMsg;
use rws_msgs::status::SESSION_STATE_CHANGED;
use rws_wire::Text;
use std::alloc::{AllocError, Global};

/// The last GTID of the domain that the OK names in the system variable `last_gtid`. `None` where it names none, or where
/// an entry or a variable of its state breaks off.
pub fn gtid_of(ok: &OkMsg, domain: u32) -> Option<Gtid>
    // The variables of the state decide.
    ensures named { (shown : List Variable) → Shows ok.now.state shown → result ≡ last_gtid domain shown }
    ensures whole { IsSome result → (shown : List Variable) × Shows ok.now.state shown }
{
    last_in_state(ok.state.as_slice(), domain).unwrap_or(None)
}

/// The OK for a client that doesn't track the session's state: without the state, and without the status bit that says
/// that there is one.
pub fn strip(alloc: Global, ok: &OkMsg) -> Result<OkMsg, AllocError>
    ensures { IfOk result (λ stripped. stripped ≡ client_form ok.now) }
{
    Ok(OkMsg {
        affected: ok.affected,
        insert_id: ok.insert_id,
        status: ok.status & !SESSION_STATE_CHANGED,
        warnings: ok.warnings,
        info: ok.info.clone()?,
        state: Text::empty(alloc),
    })
}
