//! Connections that are given up or lost.

use crate::peer::{Phase, Role};
use crate::table::{Deadline, PATIENCE_MS, Table};
use std::alloc::AllocError;

impl Table {
    /// When a connection is given up of which nothing comes from now on.
    pub fn patience_ends(&self) -> u64 {
        self.now_ms.saturating_add(PATIENCE_MS)
    }

    /// Gives a link up.
    pub fn drop_link(&mut self, link: u64) -> Result<(), AllocError> {
        let place = self.links.get(&link).copied();
        match place {
            Some(place) => self.leave(place),
            None => Ok(()),
        }
    }

    /// Closes a session.
    pub fn close(&mut self, session: u32) -> Result<(), AllocError> {
        let place = self.sessions.get(&session).copied();
        match place {
            Some(place) => self.leave(place),
            None => Ok(()),
        }
    }

    /// Gives a connection up: what waits is sent first, and it is closed then. It has no session and is no link any more.
    pub fn leave(&mut self, place: usize) -> Result<(), AllocError> {
        let until_ms = self.patience_ends();
        let Some(peer) = self.peers.get_mut(place) else {
            return Ok(());
        };
        let role = peer.role;
        let phase = peer.phase;
        peer.phase = Phase::Leaving;
        peer.until_ms = until_ms;
        self.forget(role)?;
        if phase != Phase::Open {
            self.remove(place);
            return Ok(());
        }
        self.deadlines.push_back(Deadline { place, until_ms })?;
        self.arrange_sending(place)
    }

    /// Closes a connection. Its place is vacant then.
    pub fn remove(&mut self, place: usize) {
        let _ = self.peers.try_remove(place);
    }

    /// Takes a connection out of the lists of sessions and links, and from those that it holds back.
    pub fn forget(&mut self, role: Role) -> Result<(), AllocError> {
        match role {
            Role::Client { session, links } => {
                let _ = self.sessions.remove(&session);
                self.part_from_links(&links)
            }
            Role::Link {
                link,
                server,
                client,
            } => {
                let _ = self.links.remove(&link);
                match client {
                    Some(place) => self.part_from_client(place, server),
                    None => Ok(()),
                }
            }
        }
    }

    /// The links at these places have no client any more; what held them back is gone.
    fn part_from_links(&mut self, links: &[Option<usize>]) -> Result<(), AllocError> {
        for place in links {
            if let Some(place) = place {
                self.set_client(*place, None);
                self.arrange_serving(*place)?;
            }
        }
        Ok(())
    }

    /// The client at a place has no link to this server any more, and isn't held back by it.
    fn part_from_client(&mut self, place: usize, server: u8) -> Result<(), AllocError> {
        self.set_link(place, server, None);
        self.arrange_serving(place)
    }

    /// Says which connection is the client of a link.
    fn set_client(&mut self, place: usize, new: Option<usize>) {
        if let Some(peer) = self.peers.get_mut(place) {
            peer.set_client(new);
        }
    }

    /// Says which connection is a client's link to a server.
    pub fn set_link(&mut self, place: usize, server: u8, new: Option<usize>) {
        if let Some(peer) = self.peers.get_mut(place) {
            peer.set_link(server, new);
        }
    }
}
