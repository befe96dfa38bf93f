//! The form of a reply's payloads for the proxy's client, which doesn't track the session's state and knows a prepared
//! statement by a number of its own, its handle.

ghost use Rattle.std.specs.Prelude.{◌≡◌, false, IfOk, unwrap_or, Ok, None};
ghost use Rattle.rws_reply.specs.ClientForm.{client_ok, client_prepared, client_form, is_rewritten};

use crate::Role;
use rws_msgs::{MsgFault, OkMsg, PrepareOk};
use rws_track::strip;
use rws_wire::Text;
use std::alloc::{AllocError, Global};

/// An OK without the session's state; None where it isn't one.
#[tactic(auto, unfolding(crate::specs::ClientForm::client_ok))]
fn stripped(alloc: Global, payload: &[u8]) -> Result<Option<Text>, AllocError>
    ensures { IfOk result (λ form. unwrap_or form payload.now ≡ client_ok payload.now) }
{
    let ok = match OkMsg::decode(alloc, payload, true) {
        Ok(ok) => ok,
        Err(MsgFault::OutOfMemory) => return Err(AllocError),
        Err(_) => return Ok(None),
    };
    let mut form = Vec::new(alloc);
    strip(alloc, &ok)?.encode(false, &mut form)?;
    Ok(Some(Text::new(form)))
}

/// A prepared statement under its handle; None where it isn't one.
#[tactic(auto, unfolding(crate::specs::ClientForm::client_prepared))]
fn renumbered(alloc: Global, payload: &[u8], handle: u32) -> Result<Option<Text>, AllocError>
    ensures { IfOk result (λ form. unwrap_or form payload.now ≡ client_prepared handle payload.now) }
{
    let Ok(prepared) = PrepareOk::decode(payload) else {
        return Ok(None);
    };
    let mut form = Vec::new(alloc);
    PrepareOk {
        id: handle,
        ..prepared
    }
    .encode(&mut form)?;
    Ok(Some(Text::new(form)))
}

/// A payload of a reply in the client's form, where that is another: an OK without the session's state and without the
/// status bit that says that there is one, and the answer to a prepare with the client's `handle` in place of the server's
/// number. `None` where the payload stays as it is, so that it can be passed on without a copy; for every other role than
/// these two it does, and no memory is taken.
#[tactic(auto, unfolding(crate::specs::ClientForm::client_form))]
pub fn client_payload(
    alloc: Global,
    role: Role,
    payload: &[u8],
    handle: u32,
) -> Result<Option<Text>, AllocError>
    ensures form { IfOk result (λ form. unwrap_or form payload.now ≡ client_form role handle payload.now) }
    ensures kept { is_rewritten role ≡ false → result ≡ Ok None }
{
    match role {
        Role::Ok => stripped(alloc, payload),
        Role::Prepared => renumbered(alloc, payload, handle),
        Role::Err | Role::Count | Role::Definition | Role::Eof | Role::Row => Ok(None),
    }
}
