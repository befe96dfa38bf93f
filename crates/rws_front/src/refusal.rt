//! Why a front ends.
ghost use Rattle.std.specs.Prelude.{◌≡◌};
ghost use Rattle.rws_msgs.specs.ErrLayout.{err_bytes};
ghost use Rattle.rws_front.specs.Refusals.{error_of, reason_of};

use rws_wire::{CloseReason, WireFault};

/// Why a front ends, with the error that the client is told.
#[derive(Clone, Copy)]
pub(crate) enum Refusal {
    /// The client's response isn't one, or speaks another protocol.
    BadHandshake,
    /// The user has no account, or the answer isn't that of the password.
    AccessDenied,
    /// The client's packets have a wrong number or are too long.
    Fault(WireFault),
}

impl Refusal {
    /// The payload of the error packet (ERR_Packet): 0xFF, the code with its low byte first, `#` and the SQL state, and the
    /// text. It takes no memory.
    #[tactic(auto, unfolding(rws_msgs::specs::ErrLayout::err_bytes))]
    pub fn payload(self) -> &'static [u8]
        ensures { result.now ≡ err_bytes (error_of self) }
    {
        match self {
            Refusal::BadHandshake => b"\xff\x13\x04#08S01bad handshake",
            Refusal::AccessDenied => b"\xff\x15\x04#28000access denied",
            Refusal::Fault(WireFault::OutOfOrder { .. }) => {
                b"\xff\x84\x04#08S01packets out of order"
            }
            Refusal::Fault(WireFault::TooLarge { .. }) => b"\xff\x81\x04#08S01command too large",
        }
    }

    /// Why the session is closed.
    pub fn reason(self) -> CloseReason
        ensures { result ≡ reason_of self }
    {
        match self {
            Refusal::BadHandshake => CloseReason::Handshake,
            Refusal::AccessDenied => CloseReason::Access,
            Refusal::Fault(WireFault::OutOfOrder { want, got }) => {
                CloseReason::OutOfOrder { want, got }
            }
            Refusal::Fault(WireFault::TooLarge { length }) => CloseReason::TooLarge { length },
        }
    }
}
