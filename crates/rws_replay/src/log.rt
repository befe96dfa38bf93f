//! The commands of an open transaction, with the sums of their replies.
ghost use Rattle.std.specs.Prelude.{◌≡◌, ◌<◌, ◌==◌, ◌++◌, [], ◌∷◌, Some, length, slice_get, OnErr, OnOk};
ghost use Rattle.std.specs.Option.{option_copied};
ghost use Rattle.rws_replay.specs.Logs.{new_log, with_sum};
ghost use Rattle.rws_replay.specs.Sending.{Sends};

use crate::SentFault;
use rws_checksum::Digest;
use rws_wire::PayloadList;
use std::alloc::{AllocError, Global};
use std::marker::Model;

/// The commands that a transaction has sent, as long as they have no more bytes than a limit. A command has the sum of its
/// reply once it was answered, in the order in which they were sent.
#[derive(Drop)]
pub struct ReplayLog {
    limit: u64,
    commands: Vec<PayloadList>,
    /// A place for the sum of each command, so that an answer takes no memory. The first `answered` are filled.
    sums: Vec<Digest>,
    answered: usize,
    bytes: u64,
}

impl Model for ReplayLog {
    ghost use Rattle.std.specs.Prelude.{take};
    ghost use Rattle.rws_replay.specs.Logs.{Log};
    ghost use Rattle.rws_replay.specs.LogView.{IsLog};

    ghost Value = { Log };

    ghost view = { λ log. record { limit = log.limit; commands = log.commands.items; sums = take log.answered log.sums.items; bytes = log.bytes } };

    ghost invariant = { λ log. IsLog log.commands.items log.sums.items log.answered };
}

impl ReplayLog {
    /// A log of no commands, which holds commands of at most `limit` bytes. It takes no memory; the allocator is for later
    /// calls.
    pub fn new(alloc: Global, limit: u64) -> ReplayLog
        ensures { result ≡ new_log limit }
    {
        ReplayLog {
            limit,
            commands: Vec::new(alloc),
            sums: Vec::new(alloc),
            answered: 0,
            bytes: 0,
        }
    }

    /// A command was sent, whose payloads as they are sent again are these; `bytes` are those that the client sent. Where all
    /// commands have more bytes than the limit they are gone, and each further one is `TooLarge` until `clear`.
    pub fn sent(&mut self, command: PayloadList, bytes: u64) -> Result<(), SentFault>
        ensures { Sends self.old command bytes self.new result }
    {
        let total = self.bytes.saturating_add(bytes);
        if total > self.limit {
            self.empty(total);
            return Err(SentFault::TooLarge { bytes: total });
        }
        self.push(command)?;
        self.bytes = total;
        Ok(())
    }

    /// The first command that wasn't answered yet was answered, by a reply with this sum. Nothing happens where all were.
    pub fn answered(&mut self, sum: Digest)
        ensures { self.new ≡ with_sum self.old sum }
    {
        if self.answered < self.commands.len() {
            self.sums[self.answered] = sum;
            self.answered += 1;
        }
    }

    /// How many commands were answered.
    pub fn len(&self) -> usize
        ensures { result ≡ length self.now.sums }
    {
        self.answered
    }

    /// Whether no command was answered.
    pub fn is_empty(&self) -> bool
        ensures { result ≡ (length self.now.sums == 0) }
    {
        self.answered == 0
    }

    /// The payloads of the command at this place, counted from 0, whether it was answered or not.
    pub fn command(&self, at: usize) -> Option<&PayloadList>
        ensures { option_copied result ≡ slice_get self.now.commands at }
    {
        self.commands.as_slice().get(at)
    }

    /// How many bytes the client sent for the commands since the log was empty, those that are gone included. They stop at
    /// the greatest u64.
    pub fn bytes(&self) -> u64
        ensures { result ≡ self.now.bytes }
    {
        self.bytes
    }

    /// Begins anew, as after `new`.
    pub fn clear(&mut self)
        ensures { self.new ≡ new_log self.old.limit }
    {
        self.empty(0);
    }

    /// The sum of the reply to the command at this place.
    pub(crate) fn sum(&self, at: usize) -> Digest
        requires { at < length self.now.sums }
        ensures { slice_get self.now.sums at ≡ Some result }
    {
        self.sums[at]
    }

    /// Puts a command at the end, with a place for its sum.
    fn push(&mut self, command: PayloadList) -> Result<(), AllocError>
        ensures ok { OnOk result (self.new ≡ record self.old { commands = self.old.commands ++ command ∷ [] }) }
        ensures err { OnErr result (self.new ≡ self.old) }
    {
        if self.sums.len() == self.commands.len() {
            self.sums.push([0; 20])?;
        }
        self.commands.push(command)?;
        Ok(())
    }

    /// Takes all commands out.
    fn empty(&mut self, bytes: u64)
        ensures { self.new ≡ record (new_log self.old.limit) { bytes = bytes } }
    {
        self.commands.clear();
        self.sums.clear();
        self.answered = 0;
        self.bytes = bytes;
    }
}
