//! What goes to the sockets of a board.

use crate::peer::{Role, Sent};
use crate::table::Table;
use rws_wire::Text;
use std::alloc::AllocError;

impl Table {
    /// Has a client sent a text. A session that isn't there any more gets nothing.
    pub fn to_client(&mut self, session: u32, bytes: Text) -> Result<(), AllocError> {
        let place = self.sessions.get(&session).copied();
        match place {
            Some(place) => self.put(place, bytes),
            None => Ok(()),
        }
    }

    /// Has a server sent a text on a link. A link that isn't there any more gets nothing.
    pub fn to_link(&mut self, link: u64, bytes: Text) -> Result<(), AllocError> {
        let place = self.links.get(&link).copied();
        match place {
            Some(place) => self.put(place, bytes),
            None => Ok(()),
        }
    }

    /// Has a connection sent a text behind what waits for it.
    fn put(&mut self, place: usize, bytes: Text) -> Result<(), AllocError> {
        let Some(peer) = self.peers.get_mut(place) else {
            return Ok(());
        };
        peer.output.put(bytes)?;
        self.arrange_sending(place)
    }

    /// Sends what waits and may be sent, in one write for each socket.
    pub fn flush(&mut self) -> Result<(), AllocError> {
        for _ in 0..self.unsent.len() {
            let Some(place) = self.unsent.pop() else {
                return Ok(());
            };
            self.send(place)?;
        }
        Ok(())
    }

    /// Sends once. A connection that is given up is closed as soon as all was sent and read.
    fn send(&mut self, place: usize) -> Result<(), AllocError> {
        let until_ms = self.patience_ends();
        let Some(peer) = self.peers.get_mut(place) else {
            return Ok(());
        };
        let role = peer.role;
        match peer.send(until_ms) {
            Sent::Some => self.arrange_serving(place),
            Sent::Room => self.release(place, role),
            Sent::All => {
                self.remove(place);
                Ok(())
            }
        }
    }

    /// What was held back by a full output may be read again.
    fn release(&mut self, place: usize, role: Role) -> Result<(), AllocError> {
        self.arrange_serving(place)?;
        match role {
            Role::Client { links, .. } => self.release_all(&links),
            Role::Link { client, .. } => self.release_all(&[client]),
        }
    }

    /// The same for each of these places at which there is a connection.
    fn release_all(&mut self, places: &[Option<usize>]) -> Result<(), AllocError> {
        for place in places {
            if let Some(place) = place {
                self.arrange_serving(*place)?;
            }
        }
        Ok(())
    }
}
