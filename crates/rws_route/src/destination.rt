//! What the table of targets answers.

/// Where a command goes.
#[derive(Clone, Copy, Debug, PartialEq, Eq)]
pub enum Target {
    /// The primary, by its index.
    Primary(u8),
    /// A replica, by its index.
    Replica(u8),
    /// The primary is wanted, and there is none or it was tried already.
    NoPrimary,
}
