//! Links that are being made.
ghost use Rattle.std.specs.Prelude.{IfOk, IfSome};
ghost use Rattle.rws_mio.specs.Outside.{IsHeard};

use crate::peer::{Phase, Role};
use crate::serving::is_watched;
use crate::table::{Deadline, Table};
use mio::Registry;
use mio::net::TcpStream;
use rws_board::{BoardFault, Event};
use std::alloc::AllocError;
use std::net::{Net, SocketAddr};

impl Table {
    /// Begins to make a link. One for which there is no address that may answer is lost.
    pub fn open<R: Net>(
        &mut self,
        rt: &R,
        registry: &Registry,
        link: u64,
        server: u8,
        session: u32,
    ) -> Result<(), AllocError> {
        let place = self.peers.vacant_key();
        let client = self.sessions.get(&session).copied();
        match self.dial(rt, registry, server, 0, place) {
            Some((stream, tried)) => {
                let role = Role::Link {
                    link,
                    server,
                    client,
                };
                self.insert(stream, role, Phase::Opening { tried })?;
                self.note_link(link, server, client, place)
            }
            None => self.lose(link),
        }
    }

    /// Finds a link by its number from now on, and by its client; it has its time to be made.
    fn note_link(
        &mut self,
        link: u64,
        server: u8,
        client: Option<usize>,
        place: usize,
    ) -> Result<(), AllocError> {
        self.links.insert(link, place)?;
        if let Some(client) = client {
            self.set_link(client, server, Some(place));
        }
        let until_ms = self.patience_ends();
        self.deadlines.push_back(Deadline { place, until_ms })?;
        Ok(())
    }

    /// Has the loss of a link told.
    pub fn lose(&mut self, link: u64) -> Result<(), AllocError> {
        self.lost.push_back(link)?;
        Ok(())
    }

    /// Sees how far a connection to a server has come.
    pub fn proceed<R: Net>(
        &mut self,
        rt: &R,
        registry: &Registry,
        place: usize,
        tried: usize,
    ) -> Result<Option<Event>, BoardFault>
        ensures { IfOk result (λ found. IfSome found IsHeard) }
    {
        let Some(peer) = self.peers.get_mut(place) else {
            return Ok(None);
        };
        match peer.is_connected() {
            None => {}
            Some(true) => {
                peer.phase = Phase::Open;
                self.arrange_serving(place)?;
                self.arrange_sending(place)?;
            }
            Some(false) => self.try_next(rt, registry, place, tried)?,
        }
        Ok(None)
    }

    /// Tries the next address of a link's server. Where there is none the link is lost.
    pub fn try_next<R: Net>(
        &mut self,
        rt: &R,
        registry: &Registry,
        place: usize,
        tried: usize,
    ) -> Result<(), AllocError> {
        let Some(peer) = self.peers.get_mut(place) else {
            return Ok(());
        };
        let role = peer.role;
        let Role::Link { link, server, .. } = role else {
            return Ok(());
        };
        match self.dial(rt, registry, server, tried, place) {
            Some((stream, tried)) => self.replace(place, stream, tried),
            None => {
                self.forget(role)?;
                self.remove(place);
                self.lose(link)
            }
        }
    }

    /// Goes on with a connection to another address.
    fn replace(&mut self, place: usize, stream: TcpStream, tried: usize) -> Result<(), AllocError> {
        let until_ms = self.patience_ends();
        if let Some(peer) = self.peers.get_mut(place) {
            peer.stream = stream;
            peer.phase = Phase::Opening { tried };
            peer.readable = false;
            peer.ending = false;
            peer.until_ms = until_ms;
        }
        Ok(())
    }

    /// Begins to connect to the first address behind those that were tried at which that can begin. Says how many are tried then.
    fn dial<R: Net>(
        &self,
        rt: &R,
        registry: &Registry,
        server: u8,
        tried: usize,
        place: usize,
    ) -> Option<(TcpStream, usize)> {
        let addresses = self.servers.get(server as usize)?;
        for (number, address) in addresses.iter().enumerate() {
            if number >= tried
                && let Some(stream) = connect(rt, registry, *address, place)
            {
                return Some((stream, number.saturating_add(1)));
            }
        }
        None
    }
}

/// Begins to connect.
fn connect<R: Net>(
    rt: &R,
    registry: &Registry,
    address: SocketAddr,
    place: usize,
) -> Option<TcpStream> {
    let mut stream = TcpStream::connect(rt, address).ok()?;
    if is_watched(registry, &mut stream, place) {
        Some(stream)
    } else {
        None
    }
}
