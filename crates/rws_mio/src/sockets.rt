//! All sockets of a board.
ghost use Rattle.std.specs.Prelude.{IfOk, IfSome};
ghost use Rattle.rws_mio.specs.Outside.{IsHeard};

use crate::gate::Gate;
use crate::table::{GATE, Table};
use mio::net::TcpListener;
use mio::{Events, Interest, Poll, Token};
use rws_board::{Action, BoardFault, Event};
use std::alloc::{AllocError, Global};
use std::io;
use std::net::{Net, SocketAddr};
use std::rt::Files;
use std::time::Duration;

/// How much the system tells at one time.
const EVENTS_AT_ONCE: usize = 256;

/// The connections of a board with the system's word on them.
#[derive(Drop)]
pub(crate) struct Sockets {
    poll: Poll,
    events: Events,
    table: Table,
}

impl Sockets {
    /// No connections as yet; clients come in by the listener.
    pub fn new<R: Net>(
        rt: &R,
        alloc: Global,
        mut listener: Option<TcpListener>,
        servers: Vec<Vec<SocketAddr>>,
    ) -> io::Result<Sockets> {
        let poll = Poll::new(rt)?;
        if let Some(listener) = &mut listener {
            poll.registry()
                .register(listener, Token(GATE), Interest::READABLE)?;
        }
        Ok(Sockets {
            poll,
            events: Events::with_capacity(alloc, EVENTS_AT_ONCE)?,
            table: Table::new(alloc, Gate::new(listener), servers)?,
        })
    }

    /// Where clients connect to.
    pub fn address(&self) -> Option<SocketAddr> {
        self.table.gate.address()
    }

    /// Says how late it is.
    pub fn set_now(&mut self, now_ms: u64) {
        self.table.now_ms = now_ms;
    }

    /// Sends what waits.
    pub fn flush(&mut self) -> Result<(), AllocError> {
        self.table.flush()
    }

    /// Does what is to be done as time passes.
    pub fn tick<R: Net>(&mut self, rt: &R) -> Result<(), AllocError> {
        self.table.tick(rt, self.poll.registry())
    }

    /// Serves the place that is next; where there is none, waits for so many milliseconds at most.
    pub fn turn<R: Net + Files>(
        &mut self,
        rt: &R,
        left_ms: u64,
    ) -> Result<Option<Event>, BoardFault>
        ensures { IfOk result (λ found. IfSome found IsHeard) }
    {
        if let Some(link) = self.table.lost.pop_front() {
            return Ok(Some(Event::LinkGone { link }));
        }
        match self.table.next_ready() {
            Some(place) => self.table.serve(rt, self.poll.registry(), place),
            None => {
                self.wait(left_ms)?;
                Ok(None)
            }
        }
    }

    /// Asks the system what came, and waits for it if nothing else is to be done.
    fn wait(&mut self, left_ms: u64) -> Result<(), BoardFault> {
        let wait_ms = if self.table.ready.is_empty() {
            left_ms
        } else {
            0
        };
        let timeout = Some(Duration::from_millis(wait_ms));
        self.poll
            .poll(&mut self.events, timeout)
            .map_err(|_| BoardFault::Failed)?;
        for news in &self.events {
            self.table.notice(news)?;
        }
        self.table.round = self.table.ready.len();
        self.table.flush()?;
        Ok(())
    }

    /// Takes an action.
    pub fn act<R: Net>(&mut self, rt: &R, action: Action) -> Result<(), AllocError> {
        match action {
            Action::Open {
                link,
                server,
                session,
            } => self
                .table
                .open(rt, self.poll.registry(), link, server, session),
            Action::ToClient { session, bytes } => self.table.to_client(session, bytes),
            Action::ToLink { link, bytes } => self.table.to_link(link, bytes),
            Action::Drop { link, .. } => self.table.drop_link(link),
            Action::Close { session, .. } => self.table.close(session),
        }
    }
}
