//! The pool table as a pure machine: what is known of each server, the last commit, and the events that change them.
//!
//! A history is one list of the events of all workers; the words after it are the fold of the three steps.
#![tactic(auto)]

mod events;
mod law;
mod words;

pub use events::{Entry, PoolCall, PoolEvent};
pub use law::nothing_is_forgotten;
pub use words::{PoolWords, Round, Seen, State};

#[cfg(test)]
mod tests;
