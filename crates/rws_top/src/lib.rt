//! The program's top call: it reads the words of the command line, and runs a worker over the events of a trace.
//!
//! Each status says how the run ended, and what was printed by then is a front of what the run of the input's events prints.
#![tactic(auto)]

mod asking;
mod run;
mod settings;
mod trace;

pub use run::run_here;

#[cfg(test)]
mod causal;
#[cfg(test)]
mod cutting;
#[cfg(test)]
mod results;
#[cfg(test)]
mod routes;
#[cfg(test)]
mod statements;
#[cfg(test)]
mod tests;
