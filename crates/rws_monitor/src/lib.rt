//! One round of the monitor: from what the servers answered, what the workers are told of them. The primary is kept as long as it
//! answers and follows nobody; else it is the server that most others follow.
#![tactic(auto)]

mod probe;
mod reading;
mod states;

pub use probe::{Probe, Source};
pub use reading::read_probe;
pub use states::{States, round};

#[cfg(test)]
mod tests;
