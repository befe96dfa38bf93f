//! The prepared statements of a session, and the ids that they have on its links. A command on a statement is kept under
//! the client's number of the statement and can be sent on any link, now and later, where it runs the same plain form:
//! the text, the long data, the types and the values.
#![tactic(auto)]

mod command;
mod fault;
mod handles;
mod law;
mod link_ids;
mod links;
mod statement;
mod statements;

pub use command::{handle_in, number_in, put_renumbered};
pub use fault::{ExecuteFault, HandleFault, OnWireFault, UnknownHandle};
pub use handles::{Handles, MAX_HANDLES};
pub use law::plain_forms_stay;

#[cfg(test)]
mod captured;
#[cfg(test)]
mod tests;
