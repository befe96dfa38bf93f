//! Why the proxy closes a session.

/// Why a session was closed. Numbers that decided it are kept beside the reason.
#[derive(Clone, Copy, Debug, PartialEq, Eq)]
pub enum CloseReason {
    /// The client sent COM_QUIT.
    Quit,
    /// The client's handshake response was malformed, lacks CLIENT_PROTOCOL_41 or CLIENT_SECURE_CONNECTION, or asks for TLS.
    Handshake,
    /// The user is unknown, or the answer to the scramble doesn't check.
    Access,
    /// The limit of open sessions is reached.
    Connections,
    /// A packet of the client carried the number `got` where `want` was due.
    OutOfOrder {
        want: u8,
        got: u8,
    },
    /// A command of the client, or the long data of one of its statements, comes to `length` bytes or more, above the limit.
    TooLarge {
        length: u64,
    },
    /// The client sent on while a command was unanswered, until `held` bytes were kept.
    Flooded {
        held: u64,
    },
    /// A link was lost after a part of its reply had gone to the client.
    ResultCut,
    /// A link was lost with a command on it that may have been carried out.
    OutcomeUnknown,
    /// The link that held state of the session was lost.
    SessionState,
    /// An open transaction was lost that can't be replayed: its log is too long (`bytes`), a command of it
    /// failed (`tainted`), it is read-only, or replay is switched off.
    NotReplayable {
        bytes: u64,
        tainted: bool,
        read_only: bool,
        off: bool,
    },
    /// The replay's reply to the log's item `item`, counted from 0, has another SHA-1 sum than the first one.
    Mismatch {
        item: u64,
        old: [u8; 20],
        new: [u8; 20],
    },
    /// Too many links were lost while one transaction was replayed.
    Attempts,
    /// The replay took too long: both clock readings in milliseconds.
    ReplayTime {
        from_ms: u64,
        now_ms: u64,
    },
    /// Memory ran out.
    Memory,
}
