//! The server's side of a session: one connection to one server, from its greeting over the login to the replies to
//! commands. Bytes go in as they come, and what they mean comes out step by step.
#![tactic(auto)]

mod handshake;
mod law;
mod link;
mod phase;
mod step;

pub use handshake::Reaction;
pub use law::{later_bytes_change_nothing, logins_are_read, pieces_are_joined};
pub use link::Link;
pub use step::{LinkCause, LinkStep};

#[cfg(test)]
mod tests;
