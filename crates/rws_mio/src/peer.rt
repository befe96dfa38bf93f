//! One connection of a board, with a client or with a server.
ghost use Rattle.std.specs.Prelude.{◌≡◌, ℕ, length};
ghost use Rattle.rws_mio.specs.Outside.{IsHeard};
ghost use Rattle.rws_mio.specs.Reads.{IsWithin};

use mio::event;
use mio::net::TcpStream;
use rws_board::Event;
use rws_make::Output;
use rws_wire::Text;
use std::io::{self, Read, Write};
use std::net::Shutdown;

/// Who is at the other end.
#[derive(Clone, Copy)]
pub(crate) enum Role {
    /// A client; by the servers' numbers, the places of its session's links.
    Client {
        session: u32,
        links: [Option<usize>; 7],
    },
    /// A server; the place of the client of its session.
    Link {
        link: u64,
        server: u8,
        client: Option<usize>,
    },
}

/// How far a connection has come.
#[derive(Clone, Copy, PartialEq, Eq)]
pub(crate) enum Phase {
    /// It isn't made yet; so many addresses of its server were tried.
    Opening { tried: usize },
    Open,
    /// It is given up: what waits is still to be sent, and what comes is of no use.
    Leaving,
}

/// What a read brought.
pub(crate) enum Heard {
    /// So many bytes, at the front of the buffer.
    Bytes(usize),
    Nothing,
    /// Nothing more comes.
    Finish,
}

/// What a write did.
pub(crate) enum Sent {
    /// It sent something, or nothing.
    Some,
    /// It made room again for more to be caused.
    Room,
    /// All is sent and read of a connection that is given up.
    All,
}

/// A connection, which reads and writes without waiting.
#[derive(Drop)]
pub(crate) struct Peer {
    pub stream: TcpStream,
    pub role: Role,
    pub phase: Phase,
    pub output: Output,
    /// When it is given up, if nothing comes of it until then.
    pub until_ms: u64,
    /// Whether bytes or the end may be there that weren't read.
    pub readable: bool,
    /// Whether the end is near: it is read to the end then.
    pub ending: bool,
    /// Whether the end was read.
    pub ended: bool,
    /// Whether the socket takes no more bytes for now.
    pub blocked: bool,
    /// Whether it takes none any more.
    pub failed: bool,
    /// Whether it was told that no more bytes come.
    pub shut: bool,
    /// Whether it stands among those to be served.
    pub queued: bool,
    /// Whether it stands among those that are to be sent something.
    pub unsent: bool,
}

impl Peer {
    /// A connection of which nothing is known yet.
    pub fn new(stream: TcpStream, role: Role, phase: Phase, output: Output, until_ms: u64) -> Peer {
        Peer {
            stream,
            role,
            phase,
            output,
            until_ms,
            readable: false,
            ending: false,
            ended: false,
            blocked: false,
            failed: false,
            shut: false,
            queued: false,
            unsent: false,
        }
    }

    /// Takes in what the system says of the socket.
    pub fn notice(&mut self, news: &event::Event) {
        let ends = news.is_read_closed() || news.is_error();
        self.ending = self.ending || ends;
        self.readable = self.readable || ends || news.is_readable();
        self.blocked = self.blocked && !ends && !news.is_writable();
    }

    /// Whether it is to be served.
    pub fn is_due(&self) -> bool {
        self.readable || matches!(self.phase, Phase::Opening { .. })
    }

    /// Whether there is something to be sent, or an end to be told, that the socket may take.
    pub fn wants_to_send(&self) -> bool {
        let waits = !self.output.is_empty() || (self.phase == Phase::Leaving && !self.shut);
        waits && !self.blocked
    }

    /// Reads once. A read that doesn't fill the buffer has read all that was there, unless the end is near.
    pub fn read(&mut self, buffer: &mut [u8]) -> Heard
        ensures { IsWithin (length buffer.new) result }
    {
        match self.stream.read(buffer) {
            Ok(0) => self.end(),
            Ok(count) => {
                self.readable = self.ending || count == buffer.len();
                Heard::Bytes(count)
            }
            Err(error) => self.read_failed(error.kind()),
        }
    }

    /// What an error of a read means: nothing came as yet, or nothing more comes.
    fn read_failed(&mut self, kind: io::ErrorKind) -> Heard
        ensures { (size : ℕ) → IsWithin size result }
    {
        match kind {
            io::ErrorKind::Interrupted => Heard::Nothing,
            io::ErrorKind::WouldBlock if !self.failed => {
                self.readable = false;
                Heard::Nothing
            }
            _ => self.end(),
        }
    }

    /// Nothing more is read.
    fn end(&mut self) -> Heard
        ensures { result ≡ Heard.Finish }
    {
        self.readable = false;
        self.ended = true;
        Heard::Finish
    }

    /// Sends what waits, in one write. A connection that is being made sends nothing yet.
    pub fn send(&mut self, until_ms: u64) -> Sent {
        self.unsent = false;
        if matches!(self.phase, Phase::Opening { .. }) {
            return Sent::Some;
        }
        let was_full = self.output.is_full();
        if self.write() {
            self.until_ms = until_ms;
        }
        if self.output.is_empty() && self.phase == Phase::Leaving && self.finish() {
            return Sent::All;
        }
        if was_full && !self.output.is_full() {
            return Sent::Room;
        }
        Sent::Some
    }

    /// Writes once, and says whether the socket took anything.
    fn write(&mut self) -> bool {
        if self.blocked || self.failed || self.output.is_empty() {
            return false;
        }
        match self.stream.write(self.output.as_slice()) {
            Ok(count) => {
                self.output.sent(count);
                self.blocked = !self.output.is_empty();
                count > 0
            }
            Err(error) => {
                self.write_failed(error.kind());
                false
            }
        }
    }

    /// A socket that takes nothing any more may still have bytes to be read, up to its end.
    fn write_failed(&mut self, kind: io::ErrorKind) {
        match kind {
            io::ErrorKind::Interrupted => {}
            io::ErrorKind::WouldBlock => self.blocked = true,
            _ => {
                self.output.clear();
                self.failed = true;
                self.ending = true;
                self.readable = true;
            }
        }
    }

    /// Tells the other end that nothing more comes. Says whether the connection may be closed now: a socket that is closed with
    /// unread bytes would take back what it sent.
    fn finish(&mut self) -> bool {
        if self.ended || self.failed {
            return true;
        }
        if !self.shut {
            self.shut = true;
            return self.stream.shutdown(Shutdown::Write).is_err();
        }
        false
    }

    /// Says which connection is the client of a link.
    pub fn set_client(&mut self, new: Option<usize>) {
        if let Role::Link { client, .. } = &mut self.role {
            *client = new;
        }
    }

    /// Says which connection is a client's link to a server.
    pub fn set_link(&mut self, server: u8, new: Option<usize>) {
        if let Role::Client { links, .. } = &mut self.role
            && let Some(place) = links.get_mut(server as usize)
        {
            *place = new;
        }
    }

    /// Whether it is connected; None as long as that isn't known.
    pub fn is_connected(&self) -> Option<bool> {
        if !matches!(self.stream.take_error(), Ok(None)) {
            return Some(false);
        }
        match self.stream.peer_addr() {
            Ok(_) => Some(true),
            Err(error) if error.kind() == io::ErrorKind::NotConnected => None,
            Err(_) => Some(false),
        }
    }
}

impl Role {
    /// The event of bytes from the other end.
    pub fn came(self, bytes: Text) -> Event
        ensures { IsHeard result }
    {
        match self {
            Role::Client { session, .. } => Event::ClientBytes { session, bytes },
            Role::Link { link, .. } => Event::LinkBytes { link, bytes },
        }
    }

    /// The event of its end.
    pub fn gone(self) -> Event
        ensures { IsHeard result }
    {
        match self {
            Role::Client { session, .. } => Event::ClientGone { session },
            Role::Link { link, .. } => Event::LinkGone { link },
        }
    }
}
