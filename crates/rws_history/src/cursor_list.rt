//! The cursors of a history: for each link the number of entries that it has taken. A session has few links, so they
//! stand in a list, in the order in which they were added; no link stands in it twice.
ghost use Rattle.std.specs.Prelude.{◌≡◌, ◌+◌, ◌<◌, ◌≤◌, ◌^◌, List, [], length, position, All, IfSome, OnOk, OnErr};
ghost use Rattle.rws_history.specs.Cursors.{is_of, cursor_of, placed, moved, without, all_lowered, lowered};

use std::alloc::{AllocError, Global};
use std::marker::Model;

/// The cursor of one link.
#[derive(Clone, Copy, Debug, Drop)]
pub struct LinkCursor {
    /// The link's number.
    pub link: u64,
    /// The place of the entry that the link takes next.
    pub at: usize,
}

/// The cursors, in the order in which their links were added.
#[derive(Debug, Drop)]
pub struct CursorList {
    cursors: Vec<LinkCursor>,
}

impl Model for CursorList {
    ghost use Rattle.std.specs.Prelude.{List};
    ghost use Rattle.rws_history.specs.declared.cursor_list.LinkCursor.{LinkCursor};

    ghost Value = { List LinkCursor };

    ghost view = { λ list. list.cursors.items };
}

impl CursorList {
    /// No cursors, which takes no memory.
    pub fn new(alloc: Global) -> CursorList
        ensures { result ≡ [] }
    {
        CursorList {
            cursors: Vec::new(alloc),
        }
    }

    /// The place of a link, None where the link isn't there.
    pub fn at(&self, link: u64) -> Option<usize>
        ensures { result ≡ cursor_of self.now link }
    {
        let cursor = self.cursors.iter().find(|cursor| cursor.link == link)?;
        Some(cursor.at)
    }

    /// Puts a link at this place, whether it is there already or not.
    pub fn place(&mut self, link: u64, at: usize) -> Result<(), AllocError>
        ensures ok { OnOk result (self.new ≡ placed self.old link at) }
        ensures err { OnErr result (self.new ≡ self.old) }
    {
        match self.index_of(link) {
            Some(index) => self.cursors[index] = LinkCursor { link, at },
            None => self.cursors.push(LinkCursor { link, at })?,
        }
        Ok(())
    }

    /// Moves a link one place on.
    pub fn advance(&mut self, link: u64)
        requires { IfSome (cursor_of self.old link) (λ at. at + 1 < 2 ^ 64) }
        ensures { self.new ≡ moved self.old link (cursor_of self.old link) }
    {
        if let Some(index) = self.index_of(link) {
            let at = self.cursors[index].at + 1;
            self.cursors[index] = LinkCursor { link, at };
        }
    }

    /// Forgets a link.
    pub fn forget(&mut self, link: u64)
        ensures { self.new ≡ without self.old link }
    {
        self.cursors.retain(|cursor| cursor.link != link);
    }

    /// Lowers the places above one that is taken out of the list.
    pub fn lower(&mut self, removed: usize)
        ensures { self.new ≡ all_lowered removed self.old }
    {
        for cursor in self.cursors.iter_mut() {
            cursor.at = lowered(removed, cursor.at);
        }
    }

    /// Where the link's cursor stands among the cursors.
    fn index_of(&self, link: u64) -> Option<usize>
        ensures index { result ≡ position (is_of link) self.now }
        ensures within { IfSome result (λ index. index < length self.now) }
    {
        self.cursors.iter().position(|cursor| cursor.link == link)
    }
}

/// A place, once the entry at `removed` is gone: one lower where it lies above.
pub fn lowered(removed: usize, at: usize) -> usize
    ensures { result ≡ lowered removed at }
{
    if removed < at { at - 1 } else { at }
}
