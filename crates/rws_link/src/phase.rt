//! What a link waits for.

use crate::LinkCause;
use crate::handshake::Handshake;
use rws_reply::ReplyTracker;
use rws_wire::Payload;

/// A reply that the server owes.
#[derive(Drop)]
pub(crate) struct Awaited {
    /// The number of the packet that comes next.
    pub(crate) next: u8,
    /// What the reply's payloads so far leave open.
    pub(crate) tracker: ReplyTracker,
}

/// What a link waits for.
#[derive(Drop)]
pub(crate) enum Phase {
    /// The next payload of the login. `came` is one that was read and that there was no memory to answer.
    Opening {
        handshake: Handshake,
        came: Option<Payload>,
    },
    /// A command.
    Ready,
    /// The next payload of a reply.
    Awaiting(Awaited),
    /// Nothing any more.
    Lost(LinkCause),
}
