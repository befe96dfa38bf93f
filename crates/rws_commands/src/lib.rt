//! What a client's command is: what asks a server, what it is taken for, and what it changes in the session's prepared statements
//! and its history, which each link of the session plays.
//!
//! Definitions stand in `specs/`: Requests says which command a payload is, Commands what goes to a server for it and of which class it is, Judging what
//! it is taken for, Statements how statements and history move, Errors what the proxy's own errors are.
#![tactic(auto)]

mod asked;
mod classed;
mod command;
mod ending;
mod history;
mod judged;
mod long_data;
mod proxy_error;
mod request;
mod statements;

pub use asked::put_asked;
pub use classed::ClassedCommand;
pub use command::{Body, Command, Execution};
pub use ending::Ending;
pub use history::{HistoryEntry, PreparedAs};
pub use judged::{Judged, Situation};
pub use proxy_error::ProxyError;
pub use request::Request;
pub use statements::{Statements, is_otherwise, is_prepared};

#[cfg(test)]
mod tests;
