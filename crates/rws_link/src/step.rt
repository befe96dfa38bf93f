//! What a link answers when it is asked what comes next.

use rws_reply::{Progress, Role};
use rws_wire::Text;

/// Why a link is lost.
#[derive(Clone, Copy, Debug, PartialEq, Eq)]
pub enum LinkCause {
    /// A packet of the server has a wrong number, or a payload is longer than it may be.
    BadWire,
    /// The server's payloads are no reply to what it was sent, in the login or behind it.
    BadReply,
    /// A byte came while the server was asked nothing.
    Unasked,
    /// The server's greeting can't be read, or the server lacks what a link stands on.
    Greeting,
    /// The server asked for a login by another plugin than `mysql_native_password`.
    Plugin,
    /// The server refused the login with this error.
    Login { code: u16 },
}

/// What comes next on a link.
///
/// It has no `Debug`, since what is to be sent may be a login.
#[derive(PartialEq, Eq, Drop)]
pub enum LinkStep {
    /// Nothing, until bytes come or a command is sent.
    Idle,
    /// These bytes, whole packets, are to be sent to the server.
    Send(Text),
    /// The server took the login: the link is ready for commands.
    LoggedIn,
    /// A payload of the awaited reply.
    Part {
        /// The payload as the server sent it.
        payload: Text,
        /// What it is at its place in the reply.
        role: Role,
        /// How far it brings the reply.
        progress: Progress,
        /// The number behind its last packet.
        next: u8,
        /// Whether a byte behind it is here already. Behind a whole reply nobody awaits that byte, so the link is
        /// lost: the next answer is `Lost(Unasked)`.
        behind: bool,
    },
    /// The link is lost. It answers the same from now on.
    Lost(LinkCause),
}
