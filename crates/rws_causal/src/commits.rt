//! The commit that an OK tells of.
ghost use Rattle.std.specs.Prelude.{◌≡◌, IfOk};
ghost use Rattle.rws_causal.specs.Commits.{commit_in, commit_of};

use rws_gtid::Gtid;
use rws_msgs::{MsgFault, OkMsg};
use rws_track::gtid_of;
use std::alloc::{AllocError, Global};

/// The commit of this domain that a payload tells of, if it is an OK that names one in its session state (`last_gtid`, which a server
/// tracks where it was asked to). Where a state names several, the last one counts; one that breaks off names none.
#[tactic(auto, unfolding(crate::specs::Commits::commit_in))]
pub fn commit_in(alloc: Global, payload: &[u8], domain: u32) -> Result<Option<Gtid>, AllocError>
    ensures { IfOk result (λ commit. commit ≡ commit_in domain payload.now) }
{
    match OkMsg::decode(alloc, payload, true) {
        Ok(ok) => Ok(commit_of(&ok, domain)),
        Err(MsgFault::OutOfMemory) => Err(AllocError),
        Err(_) => Ok(None),
    }
}

/// The commit that an OK tells of.
fn commit_of(ok: &OkMsg, domain: u32) -> Option<Gtid>
    ensures { result ≡ commit_of domain ok.now }
{
    gtid_of(ok, domain)
}
