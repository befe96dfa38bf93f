//! Why the proxy gives up a link to a server.

/// Why a link was dropped by the proxy. A link that its server closed has no cause.
#[derive(Clone, Copy, Debug, PartialEq, Eq)]
pub enum DropCause {
    /// A packet was out of order, or a payload too long.
    BadWire,
    /// A payload begins no reply to the command that was sent.
    BadReply,
    /// A byte came while no reply was awaited.
    Unasked,
    /// The greeting was malformed, or lacks a capability that is needed.
    Greeting,
    /// The server asked for another authentication plugin.
    Plugin,
    /// The server refused the login, or the first statement after it, with the error `code`.
    Login { code: u16 },
    /// The server answered by an error what another server had answered without one to the client, or a prepare with
    /// other numbers of columns or parameters.
    SessionDiffers,
    /// The answer to a question for the server's position was no position.
    Probe,
    /// The session stays on another link.
    Kept,
    /// A replay opens a new link to the same server.
    Replay,
    /// The session ended.
    End,
}
