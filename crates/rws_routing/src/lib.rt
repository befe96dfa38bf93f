//! Where a command stands that isn't answered yet: what its last route found, the link that it is to go on, which servers
//! were tried for it, and whether it waits for a primary.
//!
//! This is a value that moves by steps. Which step comes when is said by a session's record (`rws_record`).
#![tactic(auto)]

mod routing;

pub use routing::{Check, Routing, with_server};

#[cfg(test)]
mod tests;
