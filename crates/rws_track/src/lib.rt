//! What an OK reports of the state of its session: the GTID of the last commit. A state that breaks off names none.
#![tactic(auto)]

mod state;
#[cfg(test)]
mod tests;
mod track;

pub use track::{gtid_of, strip};
