//! What a session knows of its transaction: whether autocommit is on, what is open, and whether an error came in it.
//!
//! Each whole reply that counts is one step of this state, by the class of its command and by how it ended. The state
//! says which commands may end the transaction, and which may be sent a second time when their link was lost. A session has it
//! with the link that the transaction is open on.
#![tactic(auto)]

mod law;
mod state;
mod transaction;

pub use law::{only_transactions_are_tainted, transactions_have_a_link};
pub use state::{Course, Open, TrxState};
pub use transaction::{Answer, Transaction};

#[cfg(test)]
mod tests;
