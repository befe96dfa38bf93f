//! All connections of a board, by their places.

use crate::gate::Gate;
use crate::peer::Peer;
use mio::{Token, event};
use slab::Slab;
use std::alloc::{AllocError, Global};
use std::collections::{BTreeMap, VecDeque};
use std::net::SocketAddr;

/// The place of the listener, where no connection is.
pub(crate) const GATE: usize = usize::MAX;

/// How many bytes are read at a time.
const READ_SIZE: usize = 64 * 1024;

/// How long a connection may take to be made, and how long one that is given up may go without sending anything, in milliseconds.
pub(crate) const PATIENCE_MS: u64 = 10_000;

/// When a connection that is being made or given up is looked at again.
#[derive(Clone, Copy)]
pub(crate) struct Deadline {
    pub place: usize,
    pub until_ms: u64,
}

/// Connections, and what is to be done with them. A place is given again once its connection is closed.
#[derive(Drop)]
pub(crate) struct Table {
    pub alloc: Global,
    pub peers: Slab<Peer>,
    pub sessions: BTreeMap<u32, usize>,
    pub links: BTreeMap<u64, usize>,
    /// The addresses of each server.
    pub servers: Vec<Vec<SocketAddr>>,
    pub gate: Gate,
    /// Places that are to be served, and how many of them come before the system is asked for more.
    pub ready: VecDeque<usize>,
    pub round: usize,
    /// Places that are to be sent something.
    pub unsent: Vec<usize>,
    /// Links that were lost before they had a place.
    pub lost: VecDeque<u64>,
    /// The earliest first.
    pub deadlines: VecDeque<Deadline>,
    /// What is read goes here first.
    pub buffer: Vec<u8>,
    pub now_ms: u64,
}

impl Table {
    /// No connections as yet.
    pub fn new(
        alloc: Global,
        gate: Gate,
        servers: Vec<Vec<SocketAddr>>,
    ) -> Result<Table, AllocError> {
        Ok(Table {
            alloc,
            peers: Slab::new(alloc),
            sessions: BTreeMap::new(alloc),
            links: BTreeMap::new(alloc),
            servers,
            gate,
            ready: VecDeque::new(alloc),
            round: 0,
            unsent: Vec::new(alloc),
            lost: VecDeque::new(alloc),
            deadlines: VecDeque::new(alloc),
            buffer: Vec::from_elem(alloc, 0, READ_SIZE)?,
            now_ms: 0,
        })
    }

    /// Takes in what the system says of a socket.
    pub fn notice(&mut self, news: &event::Event) -> Result<(), AllocError> {
        let Token(place) = news.token();
        if place == GATE {
            return self.queue_gate();
        }
        let Some(peer) = self.peers.get_mut(place) else {
            return Ok(());
        };
        peer.notice(news);
        self.arrange_serving(place)?;
        self.arrange_sending(place)
    }

    /// Has the next client let in soon.
    pub fn queue_gate(&mut self) -> Result<(), AllocError> {
        if !self.gate.queued {
            self.gate.queued = true;
            self.ready.push_back(GATE)?;
        }
        Ok(())
    }

    /// Has a connection served, if something came of it.
    pub fn arrange_serving(&mut self, place: usize) -> Result<(), AllocError> {
        let Some(peer) = self.peers.get_mut(place) else {
            return Ok(());
        };
        if peer.is_due() && !peer.queued {
            peer.queued = true;
            self.ready.push_back(place)?;
        }
        Ok(())
    }

    /// Has a connection sent what waits for it.
    pub fn arrange_sending(&mut self, place: usize) -> Result<(), AllocError> {
        let Some(peer) = self.peers.get_mut(place) else {
            return Ok(());
        };
        if peer.wants_to_send() && !peer.unsent {
            peer.unsent = true;
            self.unsent.push(place)?;
        }
        Ok(())
    }

    /// The place that is to be served next in this round.
    pub fn next_ready(&mut self) -> Option<usize> {
        if self.round == 0 {
            return None;
        }
        self.round -= 1;
        self.ready.pop_front()
    }

    /// Whether so much waits for a connection that no more is to be caused.
    pub fn is_full(&self, place: usize) -> bool {
        match self.peers.get(place) {
            Some(peer) => peer.output.is_full(),
            None => false,
        }
    }
}
