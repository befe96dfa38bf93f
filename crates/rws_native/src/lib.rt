//! The authentication plugin `mysql_native_password`, on the side of the client and of the server.
//! The formulas are those of "Authentication Plugin - mysql_native_password" in MariaDB's protocol documentation:
//! with `p` the password and `s` the scramble, a client answers `SHA1(p) xor SHA1(s ++ SHA1(SHA1(p)))`, and the server
//! stores `SHA1(SHA1(p))`.
#![tactic(auto)]

mod login;
mod native;
#[cfg(test)]
mod tests;

pub use login::Login;
pub use native::{Stage1, answer, check, relay, stage1_of};
