//! The log of a transaction, and its replay on another link: the commands from the one that opened it, each with the sum of its
//! reply, and how far a replay of them has come.
#![tactic(auto)]

mod fault;
mod law;
mod log;
mod replayer;
#[cfg(test)]
mod tests;

pub use fault::{Attempts, Mismatch, SentFault};
pub use law::replays_are_whole;
pub use log::ReplayLog;
pub use replayer::Replayer;
