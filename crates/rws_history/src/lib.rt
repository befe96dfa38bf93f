//! The session commands that a session has seen answered without an error, which each further link plays before any
//! other command goes on it: a list of at most so many entries, one cursor per link, and a mark.
//!
//! The mark and each cursor are places in the list or its end; what is taken out of the list lowers those above it.
#![tactic(auto)]

mod cursor_list;
mod entry;
mod fault;
mod history;
mod law;

pub use entry::Entry;
pub use fault::PushFault;
pub use history::History;
pub use law::{cursors_are_a_map, places_follow_serials, steps_by_serials};

#[cfg(test)]
mod tests;
