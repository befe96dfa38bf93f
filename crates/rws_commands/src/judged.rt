//! What a command of the client is taken for.

use crate::{ClassedCommand, ProxyError};

/// What a command of the client is taken for.
#[derive(Drop)]
pub enum Judged {
    /// The client leaves.
    Leaves,
    /// The proxy answers it by an OK of its own.
    IsOwn,
    /// It is refused.
    IsRefused(ProxyError),
    /// Nobody answers it.
    IsSilent,
    /// With it the long data of a statement would come to so many bytes, more than a command may have.
    HasTooMuch(u64),
    /// A server is to answer it.
    Serves(ClassedCommand),
}

/// How a session stands when a command comes.
#[derive(Clone, Copy, Debug, PartialEq, Eq)]
pub struct Situation {
    /// A transaction is open.
    pub in_transaction: bool,
    /// It is a read-only one.
    pub read_only: bool,
    /// How many entries the session's history may have.
    pub history_limit: u32,
    /// How many bytes of long data a statement may hold.
    pub room: u64,
}
