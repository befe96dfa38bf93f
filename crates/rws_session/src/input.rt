//! What a session is told.

use rws_wire::Text;

/// What comes to a session from outside.
#[derive(Drop)]
pub enum SessionInput {
    /// Bytes came from the client.
    Client(Text),
    /// The client closed its connection.
    ClientGone,
    /// An opening link counts as ready, if no byte of it came.
    Ready { link: u64 },
    /// Bytes came on a link.
    Link { link: u64, bytes: Text },
    /// The server closed the link.
    LinkGone { link: u64 },
    /// The clock shows this, in milliseconds.
    Clock { now_ms: u64 },
}
