//! The settings as a value.

use crate::{AccountList, ServerList};
use rws_wire::{Mode, Text, TextList};

/// All settings of the proxy, each under the name of its key in the settings file. Times are in milliseconds where the
/// name ends in `_ms`, and in seconds where it ends in `_s`.
#[derive(Debug, Drop)]
pub struct Config {
    /// The version of the settings file that this was read from.
    pub version: u32,
    /// The addresses, `host:port`, that clients connect to, one for each worker.
    pub listen: TextList,
    /// Which commits a read is to see.
    pub causal_reads: Mode,
    /// How long a read waits on a replica for them.
    pub causal_timeout_s: u32,
    /// How long a command waits while no server is the primary.
    pub primary_wait_ms: u64,
    /// How long the replay of a transaction may take.
    pub replay_ms: u64,
    /// How many losses of a link during the replays of one transaction end its session.
    pub replay_attempts: u32,
    /// How many bytes the commands of a transaction may have that can still be replayed.
    pub replay_bytes: u64,
    /// How many session commands a session keeps to play them on further links.
    pub history_limit: u32,
    /// How many sessions a worker has at one time.
    pub sessions: u32,
    /// How many bytes a client's command may have.
    pub command_bytes: u64,
    /// How long after the start of a round of the monitor the next one starts.
    pub monitor_ms: u64,
    /// Whether a transaction whose link is lost is carried out again on another server.
    pub transaction_replay: bool,
    /// The replication domain of the servers' commits.
    pub gtid_domain: u32,
    /// The user that the monitor logs in as.
    pub monitor_user: Text,
    /// The password of that user, in clear.
    pub monitor_password: Text,
    /// The servers. A server's index in this list is its number everywhere else.
    pub servers: ServerList,
    /// Who may log in to the proxy.
    pub accounts: AccountList,
}
