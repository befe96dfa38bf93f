//! What a session owes: it is decided on, and given out in later steps of the same turn.

use rws_commands::{Ending, ProxyError};
use rws_gtid::Gtid;
use rws_links::Recording;
use rws_wire::{CloseReason, DropCause, Text};

/// Something to be given out, with all that is needed for it.
#[derive(Drop)]
pub(crate) enum Out {
    /// Packets go to the client as they are.
    Hand {
        packets: Text,
    },
    /// Packets of its login go on a link as they are.
    LogIn {
        link: u64,
        packets: Text,
    },
    /// A payload of the reply that `link` gives goes to the client, in packets from `number` on. At its last payload `ending`
    /// says how the reply ended, and `recording` what that means for the session's history.
    Pass {
        number: u8,
        link: u64,
        payload: Text,
        ending: Option<Ending>,
        recording: Recording,
    },
    /// The proxy's own OK goes to the client.
    Own {
        number: u8,
        status: u16,
    },
    /// An error of the proxy's own goes to the client.
    Refuse {
        number: u8,
        error: ProxyError,
    },
    /// The words of the pool are told of a commit, which the server at this index made.
    Record {
        server: u8,
        gtid: Gtid,
    },
    /// A link is given up.
    Drop {
        link: u64,
        cause: DropCause,
    },
    /// The session is closed.
    Close {
        reason: CloseReason,
    },
}
