//! One session of a client.
#![tactic(auto)]

mod input;
mod owing;
mod session;
#[cfg(test)]
mod tests;

pub use input::SessionInput;
pub use session::Session;
