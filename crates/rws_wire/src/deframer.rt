//! Payloads out of bytes that come in pieces.
//!
//! A [`Deframer`] holds exactly the bytes that were fed and not handed out, whatever its buffer keeps in front of them.
ghost use Rattle.std.specs.Prelude.{◌≡◌, ◌≤◌, ◌*◌, ◌++◌, List, ℕ, [], length, max, None, OnOk, OnErr, IfOk, IfSome};
ghost use Rattle.std.specs.Vec.{vec_capacity};
ghost use Rattle.rws_wire.specs.Deframing.{HandsOut};
ghost use Rattle.rws_wire.specs.Due.{number_due};
ghost use Rattle.rws_wire.specs.Gathering.{IsSpelled};

use crate::due::number_due;
use crate::gathering::{Look, gather, look_at};
use crate::{NextError, Payload, WireFault};
use std::alloc::{AllocError, Global};
use std::fmt;
use std::marker::Model;

#[cfg(test)]
mod tests;

/// The room that an emptied buffer may keep in any case, so that payloads of usual size need no memory anew.
const KEPT_ROOM: usize = 0x10_0000;

/// Takes the bytes of a stream in pieces and gives its payloads.
///
/// A piece is appended to a buffer, and a payload is copied out of it once it is whole. When a piece comes, what was
/// handed out is cut off the buffer if it is more than what is left, so the moves cost no more than the bytes that were
/// fed; asking for a payload that isn't whole reads a header for each 16 MiB of it. So the cost grows as the bytes do,
/// however they are cut into pieces.
///
/// After a piece the buffer has at most as many handed-out bytes as there were others before it. Its room grows by
/// doubling, and is kept while bytes are left. As soon as all are handed out, room of more than 1 MiB and of more than
/// four times the last payload is given back: large payloads that follow one another need no memory anew, and the first
/// small one behind them frees what they took. A payload has room for its bytes and no more.
///
/// Its `Debug` prints how many bytes are held, never the bytes, which may be a password's.
#[derive(Drop)]
pub struct Deframer {
    alloc: Global,
    limit: u64,
    bytes: Vec<u8>,
    start: usize,
    stopped: Option<WireFault>,
}

impl Model for Deframer {
    ghost use Rattle.std.specs.Prelude.{◌≤◌, drop, length};
    ghost use Rattle.rws_wire.specs.Deframing.{Deframing};

    ghost Value = { Deframing };

    ghost view = { λ d. record { limit = d.limit; held = drop d.start d.bytes.items; stopped = d.stopped } };

    ghost invariant = { λ d. d.start ≤ length d.bytes.items };
}

impl Deframer {
    /// No bytes as yet; a payload may have as many bytes as the limit says. This takes no memory.
    pub fn new(alloc: Global, limit: u64) -> Deframer
        ensures { result ≡ record { limit = limit; held = []; stopped = None } }
    {
        Deframer {
            alloc,
            limit,
            bytes: Vec::new(alloc),
            start: 0,
            stopped: None,
        }
    }

    /// How many bytes a payload may have.
    pub fn limit(&self) -> u64
        ensures { result ≡ self.now.limit }
    {
        self.limit
    }

    /// How many bytes were fed and not handed out in payloads, packet headers included.
    pub fn held(&self) -> u64
        ensures { result ≡ length self.now.held }
    {
        (self.bytes.len() - self.start) as u64
    }

    /// The number that the next packet is to have behind the whole packets, in order and within the limit, of the payload that
    /// the held bytes and then `piece` begin with, if its first packet is to have the number `first`; `first` itself where there
    /// is none. It takes no memory, so it can be asked for where there was none to feed the piece.
    pub fn number_due(&self, first: u8, piece: &[u8]) -> u8
        ensures { result ≡ number_due self.now.limit first (self.now.held ++ piece.now) }
    {
        number_due(&self.bytes[self.start..], piece, first, self.limit)
    }

    /// Takes the next bytes of the stream. `Err` changes nothing.
    pub fn feed(&mut self, piece: &[u8]) -> Result<(), AllocError>
        ensures ok { OnOk result (self.new ≡ record self.old { held = self.old.held ++ piece.now }) }
        ensures err { OnErr result (self.new ≡ self.old) }
    {
        self.compact();
        self.bytes.extend_from_slice(piece)
    }

    /// The payload that the held bytes begin with, if its first packet is to have the number `first`; None where
    /// they begin with no whole payload and no fault. A fault shows at the fourth byte of a header: a wrong number
    /// first, then a length that lifts the payload above the limit. After a fault every call answers it again, whatever
    /// its number. Only a whole payload takes memory; where memory runs out the payload stays, and can be asked for again.
    pub fn next_payload(&mut self, first: u8) -> Result<Option<Payload>, NextError>
        ensures hands_out { HandsOut self.old first result self.new }

        // The bytes of a payload that was given are its one spelling, and it is within the limit.
        ensures spelled { IfOk result (λ found. IfSome found (IsSpelled self.old.limit self.old.held first self.new.held)) }
    {
        match self.stopped {
            Some(fault) => Err(NextError::Fault(fault)),
            None => self.read_payload(first),
        }
    }

    /// The same before a fault was answered.
    fn read_payload(&mut self, first: u8) -> Result<Option<Payload>, NextError>
        requires { self.old.stopped ≡ None }
        ensures hands_out { HandsOut self.old first result self.new }
        ensures spelled { IfOk result (λ found. IfSome found (IsSpelled self.old.limit self.old.held first self.new.held)) }
    {
        let held = &self.bytes[self.start..];
        match look_at(held, first, self.limit) {
            Look::Partial => Ok(None),
            Look::Bad(fault) => {
                self.stopped = Some(fault);
                Err(NextError::Fault(fault))
            }
            Look::Whole(size) => {
                let (payload, behind) = gather(self.alloc, held, first, self.limit, size)?;
                self.start = self.bytes.len() - behind.len();
                self.give_back(size);
                Ok(Some(payload))
            }
        }
    }

    /// Cuts off what was handed out, where that is more than what is left.
    fn compact(&mut self)
        ensures { self.new ≡ self.old }
    {
        let left = self.bytes.len() - self.start;
        if self.start > left {
            self.bytes.copy_within(self.start.., 0);
            self.bytes.truncate(left);
            self.start = 0;
        }
    }

    /// Empties the buffer where nothing is left in it behind a payload of `size` bytes.
    fn give_back(&mut self, size: usize)
        ensures { self.new ≡ self.old }
    {
        if self.start == self.bytes.len() {
            empty(&mut self.bytes, size);
            self.start = 0;
        }
    }
}

impl fmt::Debug for Deframer {
    fn fmt<W: fmt::Write>(&self, f: &mut fmt::Formatter<W>) -> fmt::Result {
        f.debug_struct("Deframer")
            .field("limit", &self.limit)
            .field("held", &self.held())
            .field("stopped", &self.stopped)
            .finish()
    }
}

/// Takes all bytes out behind a payload of `size` bytes, and gives back the room of a buffer that is larger than
/// payloads of that size need.
fn empty(bytes: &mut Vec<u8>, size: usize)
    ensures items { bytes.new.items ≡ [] }
    ensures room { vec_capacity bytes.new ≤ max KEPT_ROOM (4 * size) }
{
    bytes.clear();
    if bytes.capacity() > KEPT_ROOM.max(size.saturating_mul(4)) {
        bytes.shrink_to_fit();
    }
}
