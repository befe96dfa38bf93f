//! A server behind the proxy.

use rws_wire::Text;

/// A MariaDB server that the proxy stands before.
#[derive(Debug, Drop)]
pub struct Server {
    /// A name for people; no two servers have the same.
    pub name: Text,
    /// Where it listens, as `host:port`.
    pub address: Text,
    /// Whether it is out of use: then it is never opened, nor asked by the monitor.
    pub maintenance: bool,
}
