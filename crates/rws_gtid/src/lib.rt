//! MariaDB's global transaction identifiers: their texts, lists of them, and the statement that waits for one. A text that
//! is read as a GTID is the one text that is printed for it.
#![tactic(auto)]

mod parsing;
mod printing;
#[cfg(test)]
mod tests;

pub use parsing::{parse, position_of};
pub use printing::{print, wait_text};

/// The digit that no number of a GTID begins with, but 0 itself.
const ZERO: u8 = b'0';

/// What stands between two numbers of a GTID.
const DASH: u8 = b'-';

/// What stands between two GTIDs of a list.
const COMMA: u8 = b',';

/// A global transaction identifier of MariaDB, printed as `domain-server-sequence`.
#[derive(Clone, Copy, Debug, PartialEq, Eq)]
pub struct Gtid {
    /// The replication domain. Servers keep a position in each domain.
    pub domain: u32,
    /// The id of the server that first committed the transaction.
    pub server: u32,
    /// The number of the transaction in its domain, counted up with each commit.
    pub sequence: u64,
}

/// Why a text is no GTID, or no list of them. Places count bytes from 0.
#[derive(Clone, Copy, Debug, PartialEq, Eq)]
pub enum GtidFault {
    /// The byte at this place, or the end of the text there, can't follow what stands before it.
    NotAGtid { at: usize },
    /// The number whose first digit stands at this place is too big for its field.
    TooBig { at: usize },
}
