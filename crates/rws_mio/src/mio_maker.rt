//! What makes boards over sockets.
ghost use Rattle.std.specs.Prelude.{◌≡◌, ◌≤◌, IfOk, ⊤};
ghost use Rattle.rws_board.specs.Faults.{Rises};

use crate::MioBoard;
use crate::addresses::addresses_of;
use crate::sockets::Sockets;
use mio::net::TcpListener;
use rws_config::Config;
use rws_make::{BoardMaker, MakeFault, Timer, with_board};
use std::alloc::{AllocError, Global};
use std::io;
use std::net::{Ipv4Addr, Net, SocketAddr};
use std::rt::Files;
use std::time::{Clock, Instant};

/// Makes boards over sockets: one for each address of `listen`, which the board listens at, and, behind these, one without a
/// listener for the monitor. Hosts are looked up when a board is made.
#[derive(Drop)]
pub struct MioMaker<R: Net + Clock + Files + Clone + Drop> {
    rt: R,
    events: u64,
    lent: u64,
    faults: u64,
    failure: Option<io::Error>,
}

impl<R: Net + Clock + Files + Clone + Drop> MioMaker<R> {
    /// `events` is how many events a board gives before its end; where it is 0 there is no end.
    pub fn new(rt: R, events: u64) -> MioMaker<R>
        ensures lent { result.lent ≡ 0 }
        ensures faults { result.faults ≡ 0 }
    {
        MioMaker {
            rt,
            events,
            lent: 0,
            faults: 0,
            failure: None,
        }
    }

    /// Why the last board that couldn't be made couldn't.
    pub fn failure(&self) -> Option<&io::Error> {
        self.failure.as_ref()
    }

    /// What an error of the system says: that memory is wanting, or that a board couldn't be made.
    fn refuse(&mut self, error: io::Error) -> MakeFault
        ensures counts { self.old.faults ≤ self.new.faults }
        ensures failed { result ≡ MakeFault.Failed → Rises self.old.faults self.new.faults }
        ensures lent { self.new.lent ≡ self.old.lent }
    {
        if error.kind() == io::ErrorKind::OutOfMemory {
            return MakeFault::OutOfMemory;
        }
        self.faults = self.faults.saturating_add(1);
        self.failure = Some(error);
        MakeFault::Failed
    }
}

impl<R: Net + Clock + Files + Clone + Send + Drop> BoardMaker for MioMaker<R> {
    type Made = MioBoard<R>;

    ghost did = { λ _ _ _. ⊤ };

    ghost lent = { λ m. m.lent };

    ghost faults = { λ m. m.faults };

    fn make(
        &mut self,
        alloc: Global,
        place: u32,
        config: &Config,
    ) -> Result<MioBoard<R>, MakeFault> {
        let Some(lent) = self.lent.checked_add(1) else {
            return Err(self.refuse(io::Error::from(io::ErrorKind::Other)));
        };
        match board_at(&self.rt, alloc, place, config, self.events) {
            Ok(board) => {
                self.lent = lent;
                Ok(board)
            }
            Err(error) => Err(self.refuse(error)),
        }
    }

    fn take_back(&mut self, board: MioBoard<R>) {
        self.faults = with_board(self.faults, board.faults());
        self.lent -= 1;
    }

    ghost did_nothing = { λ _. tt };
}

/// Makes the board of a place.
fn board_at<R: Net + Clock + Files + Clone + Drop>(
    rt: &R,
    alloc: Global,
    place: u32,
    config: &Config,
    events: u64,
) -> io::Result<MioBoard<R>>
    ensures { IfOk result (λ board. board.faults ≡ 0) }
{
    let listener = match config.listen.get(place as usize) {
        Some(address) => Some(listener_at(rt, alloc, address.as_slice())?),
        None => None,
    };
    let servers = server_addresses(rt, alloc, config)?;
    let sockets = Sockets::new(rt, alloc, listener, servers)?;
    let timer = Timer::new(Instant::now(rt)?);
    Ok(MioBoard::new(rt.clone()?, sockets, timer, events))
}

/// Listens at the first of a host's addresses at which that can be done. A host without a name is this machine at all of its addresses.
fn listener_at<R: Net>(rt: &R, alloc: Global, text: &[u8]) -> io::Result<TcpListener> {
    let mut failure = io::Error::from(io::ErrorKind::NotFound);
    for address in addresses_of(rt, alloc, text, Ipv4Addr::UNSPECIFIED)?.iter() {
        match TcpListener::bind(rt, *address) {
            Ok(listener) => return Ok(listener),
            Err(error) => failure = error,
        }
    }
    Err(failure)
}

/// The addresses of each server, none where its name isn't known. A host without a name is this machine.
fn server_addresses<R: Net>(
    rt: &R,
    alloc: Global,
    config: &Config,
) -> Result<Vec<Vec<SocketAddr>>, AllocError> {
    let mut servers = Vec::new(alloc);
    for server in config.servers.as_slice() {
        servers.push(addresses_of(rt, alloc, server.address.as_slice(), Ipv4Addr::LOCALHOST)?)?;
    }
    Ok(servers)
}
