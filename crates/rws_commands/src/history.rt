//! An entry of a session's history.

use rws_reply::Kind;
use rws_wire::Text;

/// How a statement was prepared that is an entry of the history.
#[derive(Clone, Copy, Debug, PartialEq, Eq)]
pub struct PreparedAs {
    /// The client's number of the statement.
    pub number: u32,
    /// How many columns its result has.
    pub columns: u16,
    /// How many parameters it takes.
    pub parameters: u16,
}

/// A command that set something in the session and was answered without an error: each link of the session plays it.
#[derive(Debug, Drop, PartialEq, Eq)]
pub struct HistoryEntry {
    /// Its place among all entries that the session ever had, counted from 0.
    pub serial: u64,
    /// The command byte and what follows it.
    pub payload: Text,
    /// What a server answers it by.
    pub kind: Kind,
    /// The statement that it prepares, if it does.
    pub statement: Option<PreparedAs>,
}
