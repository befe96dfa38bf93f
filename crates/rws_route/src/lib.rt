//! Where a command is sent that isn't pinned to a link: the table of targets.
//!
//! The target is a function of the command, the words of the pool, the loads, and the servers that were tried or banned.
#![tactic(auto)]

mod destination;
mod table;

pub use destination::Target;
pub use table::target;

#[cfg(test)]
mod tests;
