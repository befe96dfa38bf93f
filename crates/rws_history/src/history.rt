//! The history of a session: its entries, the cursors of its links, and the mark.
//!
//! There are never more entries than the limit, and the mark and each cursor are places in the list or its end.
ghost use Rattle.std.specs.Prelude.{◌≡◌, ◌<◌, ◌≤◌, ◌==◌, ◌↔◌, ℕ, length, slice_get, IfSome, IsSomeAnd, IsErrOf, OnOk, OnErr};
ghost use Rattle.std.specs.Option.{option_copied};
ghost use Rattle.rws_history.specs.declared.fault.PushFault.TheVariants.{Full};
ghost use Rattle.rws_history.specs.Cursors.{cursor_of};
ghost use Rattle.rws_history.specs.Histories.{new_history, pushed, removed, link_added, advanced, link_dropped, mark_set};

use crate::cursor_list::{CursorList, lowered};
use crate::entry::Entry;
use crate::fault::PushFault;
use std::alloc::{AllocError, Global};
use std::marker::Model;

/// The session commands that links play, with one cursor per link and a mark.
///
/// A cursor is the place of the entry that its link plays next. The mark is a place that its owner keeps: where an open
/// transaction began.
#[derive(Debug, Drop)]
pub struct History {
    limit: u32,
    entries: Vec<Entry>,
    cursors: CursorList,
    mark: usize,
}

impl Model for History {
    ghost use Rattle.rws_history.specs.Histories.{HistoryView, IsHistory};

    ghost Value = { HistoryView };

    ghost view = { λ history. record { limit = history.limit; entries = history.entries.items; cursors = history.cursors; mark = history.mark } };

    ghost invariant = { λ history. IsHistory (record { limit = history.limit; entries = history.entries.items; cursors = history.cursors; mark = history.mark }) };
}

impl History {
    /// A history of no entries and no links, which holds at most `limit` entries. It takes no memory.
    pub fn new(alloc: Global, limit: u32) -> History
        ensures { result ≡ new_history limit }
    {
        History {
            limit,
            entries: Vec::new(alloc),
            cursors: CursorList::new(alloc),
            mark: 0,
        }
    }

    /// How many entries there are.
    pub fn len(&self) -> usize
        ensures entries { result ≡ length self.now.entries }
        ensures within { result ≤ self.now.limit }
    {
        self.entries.len()
    }

    /// Whether there are no entries.
    pub fn is_empty(&self) -> bool
        ensures { result ≡ (length self.now.entries == 0) }
    {
        self.entries.is_empty()
    }

    /// Whether the limit is reached, so that `push` answers `Full`.
    pub fn is_full(&self) -> bool
        ensures { result ≡ (length self.now.entries == self.now.limit) }
    {
        self.entries.len() == self.limit as usize
    }

    /// Adds an entry at the end.
    pub fn push(&mut self, entry: Entry) -> Result<(), PushFault>
        ensures ok { OnOk result (self.new ≡ pushed self.old entry) }
        ensures full { IsErrOf result Full ↔ (length self.old.entries ≡ self.old.limit) }
        ensures err { OnErr result (self.new ≡ self.old) }
    {
        if self.is_full() {
            return Err(PushFault::Full);
        }
        match self.entries.push(entry) {
            Ok(()) => Ok(()),
            Err(_) => Err(PushFault::OutOfMemory),
        }
    }

    /// The entry at this place, counted from 0.
    pub fn entry(&self, at: usize) -> Option<&Entry>
        ensures { option_copied result ≡ slice_get self.now.entries at }
    {
        self.entries.as_slice().get(at)
    }

    /// Takes the entry at this place out. The mark and the cursors above it are lowered, so that they stand before the
    /// same entry as ever.
    pub fn remove(&mut self, at: usize)
        requires { at < length self.old.entries }
        ensures { self.new ≡ removed self.old at }
    {
        self.entries.remove(at);
        self.cursors.lower(at);
        self.mark = lowered(at, self.mark);
    }

    /// Adds a link that has played nothing. A link that is there already begins anew.
    pub fn add_link(&mut self, link: u64) -> Result<(), AllocError>
        ensures ok { OnOk result (self.new ≡ link_added self.old link) }
        ensures err { OnErr result (self.new ≡ self.old) }
    {
        self.cursors.place(link, 0)
    }

    /// The place of the entry that the link plays next; `len()` where it has played all. None where the link isn't there.
    pub fn cursor(&self, link: u64) -> Option<usize>
        ensures cursor { result ≡ cursor_of self.now.cursors link }
        ensures within { IfSome result (λ at. at ≤ length self.now.entries) }
    {
        self.cursors.at(link)
    }

    /// Moves the link's cursor behind the entry that it has played.
    pub fn advance(&mut self, link: u64)
        requires { IsSomeAnd (cursor_of self.old.cursors link) (λ at. at < length self.old.entries) }
        ensures { self.new ≡ advanced self.old link }
    {
        self.cursors.advance(link);
    }

    /// Forgets a link. Nothing happens where it isn't there.
    pub fn drop_link(&mut self, link: u64)
        ensures { self.new ≡ link_dropped self.old link }
    {
        self.cursors.forget(link);
    }

    /// Puts the mark at the end of the entries.
    pub fn set_mark(&mut self)
        ensures { self.new ≡ mark_set self.old }
    {
        self.mark = self.entries.len();
    }

    /// The place that was marked last, lowered by the entries before it that were taken out since; 0 where none was.
    pub fn mark(&self) -> usize
        ensures mark { result ≡ self.now.mark }
        ensures within { result ≤ length self.now.entries }
    {
        self.mark
    }
}
