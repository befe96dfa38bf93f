//! What came from the sockets of a board.
ghost use Rattle.std.specs.Prelude.{IfOk, IfSome};
ghost use Rattle.rws_make.specs.Zeros.{HasNoZero};
ghost use Rattle.rws_mio.specs.Outside.{IsHeard};

use crate::gate::Admission;
use crate::peer::{Heard, Peer, Phase, Role};
use crate::table::{GATE, Table};
use mio::net::TcpStream;
use mio::{Interest, Registry, Token};
use rws_board::{BoardFault, Event};
use rws_make::Output;
use rws_wire::Text;
use std::alloc::AllocError;
use std::net::Net;
use std::rt::Files;

impl Table {
    /// Serves a place once, which mostly gives an event.
    pub fn serve<R: Net + Files>(
        &mut self,
        rt: &R,
        registry: &Registry,
        place: usize,
    ) -> Result<Option<Event>, BoardFault>
        ensures { IfOk result (λ found. IfSome found IsHeard) }
    {
        if place == GATE {
            return self.admit(rt, registry);
        }
        match self.begin_serving(place) {
            None => Ok(None),
            Some(Phase::Opening { tried }) => self.proceed(rt, registry, place, tried),
            Some(Phase::Open) => self.hear(place),
            Some(Phase::Leaving) => {
                self.drain(place)?;
                Ok(None)
            }
        }
    }

    /// The connection no longer stands among those to be served.
    fn begin_serving(&mut self, place: usize) -> Option<Phase> {
        let peer = self.peers.get_mut(place)?;
        peer.queued = false;
        Some(peer.phase)
    }

    /// Lets a client in.
    fn admit<R: Files>(&mut self, rt: &R, registry: &Registry) -> Result<Option<Event>, BoardFault>
        ensures { IfOk result (λ found. IfSome found IsHeard) }
    {
        self.gate.queued = false;
        match self.gate.admit(rt)? {
            Admission::Client {
                stream,
                session,
                scramble,
            } => {
                self.queue_gate()?;
                self.seat(registry, stream, session, scramble)
            }
            Admission::Again => {
                self.queue_gate()?;
                Ok(None)
            }
            Admission::Nobody => Ok(None),
        }
    }

    /// Gives a client a place. One that the system doesn't watch is turned away without a word.
    fn seat(
        &mut self,
        registry: &Registry,
        mut stream: TcpStream,
        session: u32,
        scramble: [u8; 20],
    ) -> Result<Option<Event>, BoardFault>
        requires { HasNoZero scramble }
        ensures { IfOk result (λ found. IfSome found IsHeard) }
    {
        let place = self.peers.vacant_key();
        if !is_watched(registry, &mut stream, place) {
            return Ok(None);
        }
        let links = [None; 7];
        self.insert(stream, Role::Client { session, links }, Phase::Open)?;
        self.note_session(session, place)?;
        Ok(Some(Event::Accept { session, scramble }))
    }

    /// Finds a client by its session from now on.
    fn note_session(&mut self, session: u32, place: usize) -> Result<(), AllocError> {
        self.sessions.insert(session, place)?;
        Ok(())
    }

    /// Puts a connection into the place that is vacant next.
    pub fn insert(
        &mut self,
        stream: TcpStream,
        role: Role,
        phase: Phase,
    ) -> Result<(), AllocError> {
        let until_ms = self.patience_ends();
        let peer = Peer::new(stream, role, phase, Output::new(self.alloc), until_ms);
        self.peers.insert(peer)?;
        Ok(())
    }

    /// Reads from a connection that is open. One whose bytes would cause more than a slow reader takes waits.
    fn hear(&mut self, place: usize) -> Result<Option<Event>, BoardFault>
        ensures { IfOk result (λ found. IfSome found IsHeard) }
    {
        if self.is_held_back(place) {
            return Ok(None);
        }
        let Some(peer) = self.peers.get_mut(place) else {
            return Ok(None);
        };
        let role = peer.role;
        match peer.read(&mut self.buffer) {
            Heard::Bytes(count) => {
                let bytes = Text::from_slice(self.alloc, &self.buffer[..count])?;
                self.arrange_serving(place)?;
                Ok(Some(role.came(bytes)))
            }
            Heard::Nothing => {
                self.arrange_serving(place)?;
                Ok(None)
            }
            Heard::Finish => {
                self.leave(place)?;
                Ok(Some(role.gone()))
            }
        }
    }

    /// Reads from a connection that is given up, up to its end.
    fn drain(&mut self, place: usize) -> Result<(), AllocError> {
        let Some(peer) = self.peers.get_mut(place) else {
            return Ok(());
        };
        match peer.read(&mut self.buffer) {
            Heard::Bytes(_) | Heard::Nothing => self.arrange_serving(place),
            Heard::Finish => {
                if peer.output.is_empty() {
                    self.remove(place);
                }
                Ok(())
            }
        }
    }

    /// Whether a connection isn't read for now. A place without one isn't read either.
    fn is_held_back(&self, place: usize) -> bool {
        match self.peers.get(place) {
            None => true,
            Some(peer) => self.is_held_back_as(peer.role, peer.output.is_full()),
        }
    }

    /// A client is held back by what waits for itself and for its links, a link by what waits for its client.
    fn is_held_back_as(&self, role: Role, is_full: bool) -> bool {
        match role {
            Role::Client { links, .. } => is_full || self.is_any_full(&links),
            Role::Link { client, .. } => self.is_any_full(&[client]),
        }
    }

    /// Whether so much waits at one of these places that no more is to be caused.
    fn is_any_full(&self, places: &[Option<usize>]) -> bool {
        for place in places {
            if let Some(place) = place
                && self.is_full(*place)
            {
                return true;
            }
        }
        false
    }
}

/// Has the system tell of a socket from now on.
pub(crate) fn is_watched(registry: &Registry, stream: &mut TcpStream, place: usize) -> bool {
    let _ = stream.set_nodelay(true);
    let both = Interest::READABLE | Interest::WRITABLE;
    registry.register(stream, Token(place), both).is_ok()
}
