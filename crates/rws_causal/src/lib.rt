//! Whether a read may be sent to a server that was chosen for it: whether that server has the commits that the read has to see.
//!
//! Three calls, each of which says what comes next: `begin` when the server is chosen, `after_wait` and `after_probe` when the
//! server has answered the statement that was put before the read.
#![tactic(auto)]

mod causal;
mod commits;
#[cfg(test)]
mod tests;

pub use causal::{Causal, after_probe, after_wait, begin, probed, waited};
pub use commits::commit_in;
pub use rws_wire::Mode;
