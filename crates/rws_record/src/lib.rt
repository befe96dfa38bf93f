//! What a session of the proxy is, by definition: the record of all that came to it and that it did, the values that a
//! record has, the rules of its next step, and a worker's run over many sessions.
//!
//! Definitions stand in `specs/`: Item, Values, Rules and Record say what a session does, Outputs what is seen of it, Run what a
//! worker does. The code here is what the proxy itself sends to servers, and functions without effect whose contracts are laws about the definition.
#![tactic(auto)]

mod law;
mod output;
mod preparing;

pub use law::{one_run, records};
pub use output::Output;
pub use preparing::{preamble, probe_command, wait_command};
