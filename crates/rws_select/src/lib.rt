//! Chooses a replica by a scoring function that is stored once: the candidate of least score, the lowest index at a tie.
//!
//! The kept function answers `pending * 65536 + links` for every load: `Selector::new` requires it.
#![tactic(auto)]

mod law;
mod selector;

pub use law::choices_are_one;
pub use selector::{Load, Selector};

#[cfg(test)]
mod tests;
