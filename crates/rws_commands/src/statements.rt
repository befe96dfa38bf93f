//! What a session keeps of its client's prepared statements, and its history.
ghost use Rattle.std.specs.Prelude.{◌≡◌, List, Option, Some, None};
ghost use Rattle.std.specs.Option.{option_copied};
ghost use Rattle.rws_commands.specs.Commands.{id_for};

use crate::{Body, Command, HistoryEntry};
pub use replies::{is_otherwise, is_prepared};
use rws_handles::{Handles, number_in};
use std::alloc::Global;
use std::marker::Model;

mod entries;
mod replies;
mod taking;

/// The prepared statements of a session, by the client's handles, with the ids that they have on its links; and the session's history,
/// which each of its links plays. A statement that leaves takes its entry of the history with it.
#[derive(Drop)]
pub struct Statements {
    alloc: Global,
    handles: Handles,
    history: Vec<HistoryEntry>,
}

impl Model for Statements {
    ghost use Rattle.rws_commands.specs.Statements.{Statements};

    ghost Value = { Statements };

    ghost view = { λ s. record { table = s.handles; history = s.history.items } };
}

impl Statements {
    ghost use Rattle.std.specs.Prelude.{[]};
    ghost use Rattle.rws_commands.specs.Statements.{failed, forgotten, is_full, last_serial, next_handle, no_statements, stale_on, unlinked, unplayed};

    /// No statements and no history. It takes no memory; the allocator is for later calls.
    pub fn new(alloc: Global) -> Statements
        ensures { result ≡ no_statements }
    {
        Statements {
            alloc,
            handles: Handles::new(alloc),
            history: Vec::new(alloc),
        }
    }

    /// The history has no room for an entry, which may have so many.
    pub fn is_full(&self, limit: u32) -> bool
        ensures { result ≡ is_full limit self.now }
    {
        self.history.len() as u64 >= u64::from(limit)
    }

    /// The handle that the next statement is to have.
    pub fn next_handle(&self) -> u32
        ensures { result ≡ next_handle self.now }
    {
        self.handles.next_number()
    }

    /// A prepare failed, here or at its server: 0xFFFFFFFF names no statement.
    pub fn prepare_failed(&mut self)
        ensures { self.new ≡ failed self.old }
    {
        self.handles.prepare_failed();
    }

    /// The serial of the history's last entry.
    pub fn last_serial(&self) -> Option<u64>
        ensures { result ≡ last_serial self.now.history }
    {
        entries::last_serial(&self.history)
    }

    /// The entry that a link is to play next which has played all below this serial.
    pub fn unplayed(&self, cursor: u64) -> Option<&HistoryEntry>
        ensures { option_copied result ≡ unplayed cursor self.now }
    {
        entries::entry_from(&self.history, cursor)
    }

    /// Takes the least id that a link's server is to close.
    pub fn take_stale(&mut self, link: u64) -> Option<u32>
        ensures result { result ≡ stale_on link self.old }
        ensures rest { self.new ≡ forgotten link self.old }
        ensures none { result ≡ None → self.new ≡ self.old }
    {
        self.handles.take_closed(link)
    }

    /// A link is gone, with all ids on it.
    pub fn drop_link(&mut self, link: u64)
        ensures { self.new ≡ unlinked link self.old }
    {
        self.handles.drop_link(link);
    }

    /// The id that a link's server has for the statement of an execute.
    pub fn id_for(&self, link: u64, command: &Command) -> Option<u32>
        ensures { result ≡ id_for link command.now.body self.now.table.links }
    {
        match &command.body {
            Body::Payload(_) => None,
            Body::Run(execution) => self.handles.id(link, number_in(&execution.commands)),
        }
    }
}
