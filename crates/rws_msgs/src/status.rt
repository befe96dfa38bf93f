//! The bits of a server's status, which an OK, an EOF and a greeting carry.

/// SERVER_STATUS_IN_TRANS: a transaction is open.
pub const IN_TRANS: u16 = 0x0001;

/// SERVER_STATUS_AUTOCOMMIT: each statement is committed by itself.
pub const AUTOCOMMIT: u16 = 0x0002;

/// SERVER_MORE_RESULTS_EXISTS: another result follows.
pub const MORE_RESULTS_EXISTS: u16 = 0x0008;

/// SERVER_SESSION_STATE_CHANGED: the session's state has changed, and the OK may say how.
pub const SESSION_STATE_CHANGED: u16 = 0x4000;
