//! The limits of the proxy, each once: what a setting may be and is by default, and what no setting changes.

/// The range of a number of the settings file, both ends included, and the number where the file has none.
#[derive(Clone, Copy, Debug, PartialEq, Eq)]
pub struct Limit {
    pub least: u64,
    pub most: u64,
    pub default: u64,
}

/// The version of the settings file. A file must name it, so the default serves the built-in settings alone.
pub const VERSION: Limit = Limit {
    least: 1,
    most: 1,
    default: 1,
};

/// How many seconds a read waits for a replica to have what it is to see.
pub const CAUSAL_TIMEOUT_S: Limit = Limit {
    least: 1,
    most: 600,
    default: 10,
};

/// How many milliseconds a command waits while no server is the primary.
pub const PRIMARY_WAIT_MS: Limit = Limit {
    least: 1,
    most: 600_000,
    default: 10_000,
};

/// How many milliseconds the replay of a transaction may take.
pub const REPLAY_MS: Limit = Limit {
    least: 1,
    most: 600_000,
    default: 30_000,
};

/// How many losses of a link during the replays of one transaction end its session.
pub const REPLAY_ATTEMPTS: Limit = Limit {
    least: 1,
    most: 100,
    default: 5,
};

/// How many bytes the commands of a transaction may have that can still be replayed.
pub const REPLAY_BYTES: Limit = Limit {
    least: 0,
    most: 16_777_216,
    default: 1_048_576,
};

/// How many session commands a session keeps to play them on further links.
pub const HISTORY_LIMIT: Limit = Limit {
    least: 1,
    most: 4096,
    default: 50,
};

/// How many sessions a worker has at one time.
pub const SESSIONS: Limit = Limit {
    least: 1,
    most: 1024,
    default: 1024,
};

/// How many bytes a client's command may have.
pub const COMMAND_BYTES: Limit = Limit {
    least: 1_048_576,
    most: 67_108_864,
    default: 67_108_864,
};

/// How many milliseconds lie between the starts of two rounds of the monitor.
pub const MONITOR_MS: Limit = Limit {
    least: 100,
    most: 60_000,
    default: 2000,
};

/// The replication domain of the servers' commits.
pub const GTID_DOMAIN: Limit = Limit {
    least: 0,
    most: 4_294_967_295,
    default: 0,
};

/// How many servers the proxy stands before, at most.
pub const MOST_SERVERS: u64 = 7;

/// How many addresses the proxy listens on, at most; each has a worker of its own.
pub const MOST_LISTEN: u64 = 16;

/// How many bytes a payload of a server may have.
pub const SERVER_PAYLOAD: u64 = 67_108_864;

/// How many bytes beside one command a client may send while another command is pending.
pub const FLOOD_ROOM: u64 = 1_048_576;

/// How many prepared statements a session has at one time.
pub const MOST_HANDLES: u64 = 65_536;
