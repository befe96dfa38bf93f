//! The proxy's settings: their values, their ranges and their defaults. Every `Config` that this crate gives is
//! allowed (`IsAllowed` of specs/Allowed.antt): each number within its limit, one to seven servers, one to sixteen
//! addresses, at least one account, no server's name and no user twice.
#![tactic(auto)]

mod account;
mod account_list;
mod address;
mod building;
mod config;
mod defaults;
mod fault;
mod flaws;
mod keys;
mod law;
mod limits;
mod lookups;
mod reading;
mod repeats;
mod server;
mod server_list;
mod values;

pub use account::Account;
pub use account_list::AccountList;
pub use config::Config;
pub use defaults::built_in;
pub use fault::{ConfigFault, fault_text};
pub use law::{addresses_are_read, the_least_is_named};
pub use limits::{
    CAUSAL_TIMEOUT_S, COMMAND_BYTES, FLOOD_ROOM, GTID_DOMAIN, HISTORY_LIMIT, Limit, MONITOR_MS,
    MOST_HANDLES, MOST_LISTEN, MOST_SERVERS, PRIMARY_WAIT_MS, REPLAY_ATTEMPTS, REPLAY_BYTES,
    REPLAY_MS, SERVER_PAYLOAD, SESSIONS, VERSION,
};
pub use reading::read;
pub use server::Server;
pub use server_list::ServerList;

#[cfg(test)]
mod tests;
