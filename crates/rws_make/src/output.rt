//! Bytes on their way to one socket.
ghost use Rattle.std.specs.Prelude.{◌≡◌, ◌≤◌, ◌++◌, ◌==◌, List, [], drop, length, OnOk, OnErr};
ghost use Rattle.rws_make.specs.Unsent.{is_full};

use rws_wire::Text;
use std::alloc::{AllocError, Global};
use std::marker::Model;

/// How many bytes may wait for a socket before those that cause more of them aren't read.
const ROOM: usize = 1024 * 1024;

/// From this length on a text that comes first is kept as it is, and not copied.
const LARGE: usize = 16 * 1024;

/// The memory that an emptied output keeps in any case, so that answers of usual size need none anew.
const KEPT_ROOM: usize = 16 * 1024;

/// What a socket hasn't taken yet, in order.
#[derive(Drop)]
pub struct Output {
    bytes: Vec<u8>,
    start: usize,
}

impl Model for Output {
    ghost use Rattle.std.specs.Prelude.{◌≤◌, List, ℕ, drop, length};

    ghost Value = { List ℕ };

    ghost view = { λ o. drop o.start o.bytes.items };

    ghost invariant = { λ o. o.start ≤ length o.bytes.items };
}

impl Output {
    /// Nothing as yet, which takes no memory.
    pub fn new(alloc: Global) -> Output
        ensures { result ≡ [] }
    {
        Output {
            bytes: Vec::new(alloc),
            start: 0,
        }
    }

    /// What is to be sent next.
    pub fn as_slice(&self) -> &[u8]
        ensures { result.now ≡ self.now }
    {
        &self.bytes[self.start..]
    }

    /// How many bytes wait.
    pub fn len(&self) -> usize
        ensures { result ≡ length self.now }
    {
        self.bytes.len() - self.start
    }

    /// Whether nothing waits.
    pub fn is_empty(&self) -> bool
        ensures { result ≡ (length self.now == 0) }
    {
        self.len() == 0
    }

    /// Whether so many bytes wait that no more are to be caused.
    pub fn is_full(&self) -> bool
        ensures { result ≡ is_full self.now }
    {
        self.len() > ROOM
    }

    /// Puts a text at the end.
    pub fn put(&mut self, text: Text) -> Result<(), AllocError>
        ensures ok { OnOk result (self.new ≡ self.old ++ text) }
        ensures err { OnErr result (self.new ≡ self.old) }
    {
        if self.is_empty() && text.len() >= LARGE {
            self.take_over(text);
            return Ok(());
        }
        self.compact();
        self.bytes.extend_from_slice(text.as_slice())
    }

    /// The socket took so many bytes.
    pub fn sent(&mut self, count: usize)
        requires { count ≤ length self.old }
        ensures { self.new ≡ drop count self.old }
    {
        self.start += count;
        self.give_back();
    }

    /// Forgets what waits.
    pub fn clear(&mut self)
        ensures { self.new ≡ [] }
    {
        self.start = self.bytes.len();
        self.give_back();
    }

    /// Keeps the memory of a text that is the first to wait.
    fn take_over(&mut self, text: Text)
        requires { self.old ≡ [] }
        ensures { self.new ≡ self.old ++ text }
    {
        self.bytes = text.into_bytes();
        self.start = 0;
    }

    /// Cuts off what was sent, where that is more than what is left.
    fn compact(&mut self)
        ensures { self.new ≡ self.old }
    {
        let left = self.bytes.len() - self.start;
        if self.start > left {
            self.bytes.copy_within(self.start.., 0);
            self.bytes.truncate(left);
            self.start = 0;
        }
    }

    /// Empties the buffer where nothing is left in it, and gives back memory above what is kept.
    fn give_back(&mut self)
        ensures { self.new ≡ self.old }
    {
        if self.start == self.bytes.len() {
            empty(&mut self.bytes);
            self.start = 0;
        }
    }
}

/// Takes all bytes out, and gives back the room of a large buffer.
fn empty(bytes: &mut Vec<u8>)
    ensures { bytes.new.items ≡ [] }
{
    bytes.clear();
    if bytes.capacity() > KEPT_ROOM {
        bytes.shrink_to_fit();
    }
}
