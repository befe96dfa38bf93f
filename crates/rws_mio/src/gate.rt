//! Where clients come in.
ghost use Rattle.std.specs.Prelude.{IfOk};
ghost use Rattle.rws_mio.specs.Admissions.{IsSound};
ghost use Rattle.rws_make.specs.Zeros.{HasNoZero};

use mio::net::{TcpListener, TcpStream};
use rws_board::BoardFault;
use rws_make::Scrambles;
use std::io;
use std::net::SocketAddr;
use std::rt::Files;

/// What came of a look at the listener.
pub(crate) enum Admission {
    /// A client, under this number, that is to be greeted with this scramble.
    Client {
        stream: TcpStream,
        session: u32,
        scramble: [u8; 20],
    },
    /// The next one may be there already.
    Again,
    /// None waits.
    Nobody,
}

/// The listener of a board, if it has one, and what a client is given.
#[derive(Drop)]
pub(crate) struct Gate {
    listener: Option<TcpListener>,
    scrambles: Scrambles,
    last_session: u32,
    /// Whether the system was short of something: then the next clock is waited for.
    pub paused: bool,
    /// Whether it stands among those to be served.
    pub queued: bool,
}

impl Gate {
    /// No client came in yet.
    pub fn new(listener: Option<TcpListener>) -> Gate {
        Gate {
            listener,
            scrambles: Scrambles::new(),
            last_session: 0,
            paused: false,
            queued: false,
        }
    }

    /// Where clients connect to.
    pub fn address(&self) -> Option<SocketAddr> {
        self.listener.as_ref()?.local_addr().ok()
    }

    /// Lets the next client in. It fails where the listener does, and where the numbers of sessions are used up.
    pub fn admit<R: Files>(&mut self, rt: &R) -> Result<Admission, BoardFault>
        ensures { IfOk result IsSound }
    {
        let scramble = match self.scrambles.draw(rt) {
            Ok(scramble) => scramble,
            Err(error) => return self.put_off(&error),
        };
        let Some(listener) = &self.listener else {
            return Ok(Admission::Nobody);
        };
        match listener.accept() {
            Ok((stream, _)) => self.welcome(stream, scramble),
            Err(error) => self.put_off(&error),
        }
    }

    /// Gives a client the next number. It fails where the numbers are used up.
    fn welcome(&mut self, stream: TcpStream, scramble: [u8; 20]) -> Result<Admission, BoardFault>
        requires { HasNoZero scramble }
        ensures { IfOk result IsSound }
    {
        let session = self.last_session.checked_add(1).ok_or(BoardFault::Failed)?;
        self.last_session = session;
        Ok(Admission::Client {
            stream,
            session,
            scramble,
        })
    }

    /// What an error of the system means for the listener.
    fn put_off(&mut self, error: &io::Error) -> Result<Admission, BoardFault>
        ensures { IfOk result IsSound }
    {
        if error.kind() == io::ErrorKind::WouldBlock {
            return Ok(Admission::Nobody);
        }
        match error.raw_os_error() {
            Some(code) if is_of_one_client(code) => Ok(Admission::Again),
            Some(code) if is_shortage(code) => {
                self.paused = true;
                Ok(Admission::Nobody)
            }
            _ => Err(BoardFault::Failed),
        }
    }
}

/// Whether an error of an accept says nothing of the listener, but of the connection that it would have given, or of a signal:
/// EINTR, EPERM, EPROTO, ENOPROTOOPT, EOPNOTSUPP, ENETDOWN, ENETUNREACH, ECONNABORTED, EHOSTDOWN, EHOSTUNREACH and ENONET.
fn is_of_one_client(code: i32) -> bool {
    [4, 1, 71, 92, 95, 100, 101, 103, 112, 113, 64].contains(&code)
}

/// Whether it says that the system is short of memory or of descriptors: ENOMEM, ENFILE, EMFILE, ENOBUFS.
fn is_shortage(code: i32) -> bool {
    [12, 23, 24, 105].contains(&code)
}
