//! The classes of statements: what a statement may change decides where it is sent.

/// What a statement may do, as far as routing and replay need to know it.
#[derive(Clone, Copy, Debug, PartialEq, Eq)]
pub enum Class {
    /// Changes nothing, and reads tables and the session's own settings: any connection on which those
    /// were set may answer it.
    Read,
    /// Reads, but something that may differ from server to server.
    PrimaryRead,
    /// Changes rows or locks them, inside the current transaction.
    Write,
    /// Changes settings of the session alone, and can be repeated on other connections.
    Session,
    /// Opens a read-write transaction.
    Begin,
    /// Opens a read-only transaction.
    BeginReadOnly,
    /// Commits the open transaction.
    Commit,
    /// Drops the open transaction.
    Rollback,
    /// A setting of the session that switches autocommit on.
    AutocommitOn,
    /// A setting of the session that switches autocommit off.
    AutocommitOff,
    /// Sets, releases or rolls back to a savepoint of the open transaction.
    TrxLocal,
    /// Changes definitions, which commits the open transaction.
    Ddl,
    /// Sets what the proxy itself stands on: it is never sent.
    Refused,
    /// May change anything on its connection: the session stays on that connection from then on.
    Other,
}
