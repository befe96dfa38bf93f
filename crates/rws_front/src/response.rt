//! The client's response to the greeting (Handshake Response Packet), as far as it is read before its answer is looked at.
ghost use Rattle.std.specs.Prelude.{◌≡◌, IfOk};
ghost use Rattle.rws_front.specs.Connection.{is_native, is_spoken, response_in};
ghost use Rattle.rws_front.specs.Names.{IsNamedResponse};

use crate::messages::NATIVE_PLUGIN;
use rws_msgs::capability::{PROTOCOL_41, SECURE_CONNECTION, SSL};
use rws_msgs::{MsgFault, Response};
use rws_wire::Text;
use std::alloc::{AllocError, Global};

/// Whether the client speaks this protocol, without TLS.
#[tactic(auto, unfolding(rws_msgs::specs::ResponseLayout::has))]
fn is_spoken(flags: u32) -> bool
    ensures { result ≡ is_spoken flags }
{
    flags & PROTOCOL_41 != 0 && flags & SECURE_CONNECTION != 0 && flags & SSL == 0
}

/// The response that the payload is, if it is one that can be taken up.
pub(crate) fn response_in(alloc: Global, payload: &[u8]) -> Result<Option<Response>, AllocError>
    ensures reads { IfOk result (λ response. response ≡ response_in payload.now) }
    ensures named { IfOk result IsNamedResponse }
{
    match Response::decode(alloc, payload) {
        Ok(response) if is_spoken(response.flags) => Ok(Some(response)),
        Ok(_) => Ok(None),
        Err(MsgFault::Short) => Ok(None),
        Err(MsgFault::BadTag { .. }) => Ok(None),
        Err(MsgFault::Trailing) => Ok(None),
        Err(MsgFault::BadLenenc) => Ok(None),
        Err(MsgFault::OutOfMemory) => Err(AllocError),
    }
}

/// Whether the client answers by the native plugin, as it does where it names none.
pub(crate) fn is_native(plugin: &Option<Text>) -> bool
    ensures { result ≡ is_native plugin.now }
{
    match plugin {
        Some(plugin) => plugin.as_slice() == NATIVE_PLUGIN,
        None => true,
    }
}
