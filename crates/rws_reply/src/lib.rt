//! Whole replies: where the reply to a command ends, told payload by payload.
//!
//! They come on a link with `CLIENT_PROTOCOL_41` and `CLIENT_SESSION_TRACK` and without `CLIENT_DEPRECATE_EOF`.
#![tactic(auto)]

mod awaits;
#[cfg(test)]
mod captured;
mod client;
mod kind;
mod law;
mod payload;
mod role;
#[cfg(test)]
mod tests;
mod tracker;

pub use client::client_payload;
pub use kind::{BadReply, Kind, Outcome, Progress};
pub use law::{client_replies_are_replies, progress_is_exact, replies_end_once, role_is_exact};
pub use payload::column_count;
pub use role::Role;
pub use tracker::ReplyTracker;
