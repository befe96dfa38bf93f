//! The pool words in one cell that all workers share, and the passes by which they call it: all calls stand in one history.
#![tactic(auto)]

mod cell;
mod law;
mod packing;
mod seat;
mod view;

pub use cell::{Pass, PoolCell};
pub use law::each_entry_has_its_pass;
pub use view::{Part, View};

#[cfg(test)]
mod tests;
