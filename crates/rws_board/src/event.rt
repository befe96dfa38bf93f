//! What a worker is told.

use rws_pool::Round;
use rws_wire::Text;

/// What happened outside a worker.
#[derive(Clone, Debug, Drop, PartialEq, Eq)]
pub enum Event {
    /// A client connects: a session begins that greets it with this scramble, of which no byte is zero.
    Accept { session: u32, scramble: [u8; 20] },
    /// A session begins in the command phase, with a ready link to this server of the settings.
    Begin { session: u32, server: u8 },
    /// Bytes came from the client.
    ClientBytes { session: u32, bytes: Text },
    /// The client closed its connection.
    ClientGone { session: u32 },
    /// The login of an opening link that has had no bytes counts as done, from the greeting to the preamble's end.
    LinkReady { link: u64 },
    /// Bytes came from the server.
    LinkBytes { link: u64, bytes: Text },
    /// The server closed its connection.
    LinkGone { link: u64 },
    /// The clock shows this, in milliseconds. It never goes back.
    Clock { now_ms: u64 },
    /// The monitor ended a round, in which it found this.
    Observed { round: Round },
    /// Nothing more comes.
    End,
}
