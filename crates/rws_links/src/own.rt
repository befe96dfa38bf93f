//! What the proxy itself tells a client.
ghost use Rattle.std.specs.Prelude.{◌≡◌, IfOk};
ghost use Rattle.rws_wire.specs.Packets.{spelling};
ghost use Rattle.rws_msgs.specs.ErrLayout.{err_bytes};
ghost use Rattle.rws_commands.specs.declared.proxy_error.ProxyError.TheVariants.{OutOfMemory};
ghost use Rattle.rws_commands.specs.Errors.{error_of};
ghost use Rattle.rws_record.specs.Outputs.{own_ok};

use rws_commands::ProxyError;
use rws_wire::frame;
use std::alloc::{AllocError, Global};

/// OK_Packet: nothing affected, no insert id, this status, no warnings.
#[tactic(auto, unfolding(rws_msgs::specs::OkLayout::ok_bytes, rws_msgs::specs::OkLayout::texts_bytes, rws_wire::specs::Lenenc::lenenc_bytes))]
pub fn own_ok(status: u16) -> [u8; 7]
    ensures { result ≡ own_ok status }
{
    let [low, high] = status.to_le_bytes();
    [0x00, 0, 0, low, high, 0, 0]
}

/// The packet that tells a client that memory was wanting, with the number 1.
pub fn reserve_farewell(alloc: Global) -> Result<Vec<u8>, AllocError>
    ensures { IfOk result (λ packet. packet.items ≡ spelling 1 (err_bytes (error_of OutOfMemory))) }
{
    let payload = ProxyError::OutOfMemory.payload(alloc)?;
    let mut packet = Vec::new(alloc);
    frame(payload.as_slice(), 1, &mut packet)?;
    Ok(packet)
}
