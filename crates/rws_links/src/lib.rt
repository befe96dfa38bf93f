//! The links of a session, in a table by number: what each was asked for, what comes on them, how far each has come in the session's
//! history, and the login that new ones repeat.
#![tactic(auto)]

mod coming;
mod finding;
mod history;
mod login;
mod loss;
mod numbered;
mod own;
mod sending;
mod table;
mod transaction;

pub use coming::Coming;
pub use finding::{Count, Due, DueKind, is_link, server_in};
pub use history::Recording;
pub use login::LinkLogin;
pub use loss::{closing, drop_cause, is_loss};
pub use numbered::{Asked, NumberedLink};
pub use own::{own_ok, reserve_farewell};
pub use table::LinkTable;
pub use transaction::{
    answered_by, class_by_pending, ends_by, not_replayable, prepares, sends_again, sets_session,
};

#[cfg(test)]
mod tests;
