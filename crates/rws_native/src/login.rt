//! What a proxy keeps of a client's login, so that it can log in at a server as that client.

use crate::Stage1;
use rws_wire::Text;

/// A login that was accepted. Who has its first stage can log in as the client, so it has no `Debug`.
#[derive(Clone, PartialEq, Eq, Drop)]
pub struct Login {
    /// The name of the account.
    pub user: Text,
    /// What proves the password to a server; nothing where the account's password is empty.
    pub stage1: Option<Stage1>,
    /// The database that the client chose, if any.
    pub database: Option<Text>,
    /// The number of the client's character set and collation.
    pub charset: u8,
    /// The capabilities of the client among those that it was offered.
    pub flags: u32,
}
