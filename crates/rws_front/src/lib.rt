//! The client's side of a login: a front greets its client, judges the login by the accounts of the settings, and then hands out
//! the client's commands ("Connection", in MariaDB's protocol documentation). Bytes go in by `feed` in any pieces, and steps come
//! out by `next`; nothing here reads or writes a socket.
#![tactic(auto)]

mod access;
mod front;
mod law;
mod messages;
mod phase;
mod refusal;
mod response;
mod step;

pub use access::Access;
pub use front::Front;
pub use law::{
    answers_are_granted, errors_are_numbered, logins_are_proved, pieces_change_nothing,
    steps_are_moves,
};
pub use rws_native::Login;
pub use step::FrontStep;

#[cfg(test)]
mod captured;
#[cfg(test)]
mod tests;
