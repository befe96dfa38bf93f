//! What one server answered.

/// What a server was found to be when it was asked.
#[derive(Clone, Copy, Debug, PartialEq, Eq)]
pub enum Probe {
    /// It didn't answer as it should.
    Down,
    /// It did.
    Found {
        /// Its `server_id`.
        server_id: u32,
        /// The sequence of its position in the domain, 0 where it has none.
        position: u64,
        /// The server that it replicates from, if any.
        source: Option<Source>,
    },
}

/// How a replica stands to its source ("SHOW REPLICA STATUS", in MariaDB's documentation).
#[derive(Clone, Copy, Debug, PartialEq, Eq)]
pub struct Source {
    /// Whether it fetches changes, or connects in order to.
    pub io: bool,
    /// Whether it applies them.
    pub sql: bool,
    /// The `server_id` of the source.
    pub primary_id: u32,
}
