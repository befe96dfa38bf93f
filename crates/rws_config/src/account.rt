//! Who may log in.

use rws_wire::Text;

/// An account that clients of the proxy log in with. The servers have the same one, since the proxy logs in to them as
/// the client.
#[derive(Debug, Drop)]
pub struct Account {
    /// The user's name; no two accounts have the same.
    pub user: Text,
    /// `SHA1(SHA1(password))`, which MariaDB stores and shows as 40 hex digits behind a `*`; `None` for the empty
    /// password.
    pub stored: Option<[u8; 20]>,
}
