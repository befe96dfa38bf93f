//! What a worker wants done.

use rws_wire::{CloseReason, DropCause, Text};

/// What is to be done outside a worker.
#[derive(Debug, Drop, PartialEq, Eq)]
pub enum Action {
    /// Open a connection to this server of the settings, for this session.
    Open { link: u64, server: u8, session: u32 },
    /// Send these bytes to the client.
    ToClient { session: u32, bytes: Text },
    /// Send these bytes to the server.
    ToLink { link: u64, bytes: Text },
    /// Give up the connection to the server.
    Drop { link: u64, cause: DropCause },
    /// Close the connection to the client, and forget the session.
    Close { session: u32, reason: CloseReason },
}
