//! Where hosts are.

use std::alloc::{AllocError, Global};
use std::net::{Ipv4Addr, Net, SocketAddr, ToSocketAddrs};

/// The addresses of `host:port`, in the order in which they are to be tried. A numeric host has one, a name is looked up, which may
/// take its time; a name that isn't known has none. An empty host is `bare`.
pub(crate) fn addresses_of<N: Net>(
    net: &N,
    alloc: Global,
    text: &[u8],
    bare: Ipv4Addr,
) -> Result<Vec<SocketAddr>, AllocError> {
    let mut addresses = Vec::new(alloc);
    let Some((host, port)) = parts_of(text) else {
        return Ok(addresses);
    };
    if host.is_empty() {
        addresses.push(SocketAddr::from((bare, port)))?;
        return Ok(addresses);
    }
    if let Ok(found) = (host, port).to_socket_addrs(net) {
        for address in found {
            addresses.push(address)?;
        }
    }
    Ok(addresses)
}

/// Host and port.
fn parts_of(text: &[u8]) -> Option<(&str, u16)> {
    let text = str::from_utf8(text).ok()?;
    let (host, port) = text.rsplit_once(':')?;
    Some((host, port.parse::<u16>().ok()?))
}
