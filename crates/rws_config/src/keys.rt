//! The keys of a settings file and what may stand at them, as tables.

ghost use Rattle.std.specs.Prelude.{◌≡◌, map};
ghost use Rattle.toml.specs.View.{view};
ghost use Rattle.rws_config.specs.Keys.{fits, entry_of};
ghost use Rattle.rws_config.specs.Settings.{keys_in, prefix};

use crate::address::is_address;
use crate::values::{are_addresses, are_tables, is_login, is_stored, mode_named, number_in};
use crate::{
    CAUSAL_TIMEOUT_S, COMMAND_BYTES, GTID_DOMAIN, HISTORY_LIMIT, Limit, MONITOR_MS,
    PRIMARY_WAIT_MS, REPLAY_ATTEMPTS, REPLAY_BYTES, REPLAY_MS, SESSIONS, VERSION,
};
use toml::Value;

/// What the value at a key has to be.
#[derive(Clone, Copy)]
pub(crate) enum Kind {
    /// A whole number within the limit.
    Number(Limit),
    /// True or false.
    Switch,
    /// `none`, `local` or `global`.
    ModeName,
    /// Any text.
    Text,
    /// A text without a zero character, since names and passwords end at one in a login.
    Login,
    /// One address, `host:port`.
    Address,
    /// One to sixteen addresses.
    Addresses,
    /// The stored form of a password: empty, or 40 hex digits.
    Stored,
    /// One or more tables.
    Tables,
}

impl Kind {
    /// Whether this value may stand there.
    pub(crate) fn fits(self, value: &Value) -> bool
        ensures { result ≡ fits self (view value.now) }
    {
        match (self, value) {
            (Kind::Number(limit), Value::Integer(n)) => number_in(limit, *n).is_some(),
            (Kind::Switch, Value::Boolean(_)) => true,
            (Kind::ModeName, Value::String(text)) => mode_named(text.as_str()).is_some(),
            (Kind::Text, Value::String(_)) => true,
            (Kind::Login, Value::String(text)) => is_login(text.as_str()),
            (Kind::Address, Value::String(text)) => is_address(text.as_str()),
            (Kind::Addresses, Value::Array(values)) => are_addresses(values),
            (Kind::Stored, Value::String(text)) => is_stored(text.as_str()),
            (Kind::Tables, Value::Array(values)) => are_tables(values),
            _ => false,
        }
    }
}

/// A key of a settings file.
pub(crate) struct Key {
    pub(crate) name: &'static str,
    pub(crate) kind: Kind,
    pub(crate) required: bool,
}

/// Where a key stands.
#[derive(Clone, Copy)]
pub(crate) enum Place {
    /// At the top.
    Top,
    /// In a table of `server`.
    Servers,
    /// In a table of `account`.
    Accounts,
}

impl Place {
    /// The keys that may stand there.
    pub(crate) fn keys(self) -> &'static [Key]
        ensures { map entry_of result.now ≡ keys_in self }
    {
        match self {
            Place::Top => &TOP,
            Place::Servers => &SERVER,
            Place::Accounts => &ACCOUNT,
        }
    }

    /// What stands before the names of these keys in a fault.
    pub(crate) fn prefix(self) -> &'static str
        ensures { result.now ≡ prefix self }
    {
        match self {
            Place::Top => "",
            Place::Servers => "server.",
            Place::Accounts => "account.",
        }
    }
}

/// The keys at the top.
const TOP: [Key; 18] = [
    Key {
        name: "version",
        kind: Kind::Number(VERSION),
        required: true,
    },
    Key {
        name: "listen",
        kind: Kind::Addresses,
        required: false,
    },
    Key {
        name: "causal_reads",
        kind: Kind::ModeName,
        required: false,
    },
    Key {
        name: "causal_timeout_s",
        kind: Kind::Number(CAUSAL_TIMEOUT_S),
        required: false,
    },
    Key {
        name: "primary_wait_ms",
        kind: Kind::Number(PRIMARY_WAIT_MS),
        required: false,
    },
    Key {
        name: "replay_ms",
        kind: Kind::Number(REPLAY_MS),
        required: false,
    },
    Key {
        name: "replay_attempts",
        kind: Kind::Number(REPLAY_ATTEMPTS),
        required: false,
    },
    Key {
        name: "replay_bytes",
        kind: Kind::Number(REPLAY_BYTES),
        required: false,
    },
    Key {
        name: "history_limit",
        kind: Kind::Number(HISTORY_LIMIT),
        required: false,
    },
    Key {
        name: "sessions",
        kind: Kind::Number(SESSIONS),
        required: false,
    },
    Key {
        name: "command_bytes",
        kind: Kind::Number(COMMAND_BYTES),
        required: false,
    },
    Key {
        name: "monitor_ms",
        kind: Kind::Number(MONITOR_MS),
        required: false,
    },
    Key {
        name: "transaction_replay",
        kind: Kind::Switch,
        required: false,
    },
    Key {
        name: "gtid_domain",
        kind: Kind::Number(GTID_DOMAIN),
        required: false,
    },
    Key {
        name: "monitor_user",
        kind: Kind::Login,
        required: false,
    },
    Key {
        name: "monitor_password",
        kind: Kind::Login,
        required: false,
    },
    Key {
        name: "server",
        kind: Kind::Tables,
        required: true,
    },
    Key {
        name: "account",
        kind: Kind::Tables,
        required: true,
    },
];

/// The keys of a table of `server`.
const SERVER: [Key; 3] = [
    Key {
        name: "name",
        kind: Kind::Text,
        required: true,
    },
    Key {
        name: "address",
        kind: Kind::Address,
        required: true,
    },
    Key {
        name: "maintenance",
        kind: Kind::Switch,
        required: false,
    },
];

/// The keys of a table of `account`.
const ACCOUNT: [Key; 2] = [
    Key {
        name: "user",
        kind: Kind::Login,
        required: true,
    },
    Key {
        name: "password",
        kind: Kind::Stored,
        required: true,
    },
];
