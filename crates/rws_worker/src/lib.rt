//! A worker: many sessions beside each other, over one board that gives it events and takes its actions.
//!
//! A `Worker` is a machine without a board: it is given an event, and then asked for its actions, one after the other.
//! `work_here` runs one over a board until the board's end.
#![tactic(auto)]

mod ahead;
mod asker;
mod step;
mod tally;
mod work;
mod worker;

pub use step::Step;
pub use work::{WorkEnd, work_here};
pub use worker::Worker;
