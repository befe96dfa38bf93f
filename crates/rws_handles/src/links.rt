//! The ids of a session's statements on its links, one entry a link.
ghost use Rattle.std.specs.Prelude.{◌≡◌, ◌<◌, IfSome, OnOk, OnErr, length};

use crate::link_ids::LinkIds;
use std::alloc::{AllocError, Global};
use std::marker::Model;

/// The ids on all links, in the order in which the links got their first.
#[derive(Drop)]
pub struct LinkList {
    alloc: Global,
    links: Vec<LinkIds>,
}

impl Model for LinkList {
    ghost use Rattle.std.specs.Prelude.{List};
    ghost use Rattle.rws_handles.specs.LinkIds.{Ids};

    ghost Value = { List Ids };

    ghost view = { λ list. list.links.items };
}

impl LinkList {
    ghost use Rattle.std.specs.Prelude.{[]};
    ghost use Rattle.rws_handles.specs.LinkIds.{least};
    ghost use Rattle.rws_handles.specs.Links.{id_on, ids_on, left_on, place_of, with_id_on, with_stale_on, without_least_on, without_link};

    /// No ids. It takes no memory.
    pub fn new(alloc: Global) -> LinkList
        ensures { result ≡ [] }
    {
        LinkList {
            alloc,
            links: Vec::new(alloc),
        }
    }

    /// The place of a link's ids.
    fn place(&self, link: u64) -> Option<usize>
        ensures place { result ≡ place_of link self.now }
        ensures within { IfSome result (λ at. at < length self.now) }
    {
        self.links.iter().position(|on| on.is_on(link))
    }

    /// The id of the statement with this number on a link.
    pub fn id(&self, link: u64, number: u32) -> Option<u32>
        ensures { result ≡ id_on self.now link number }
    {
        let at = self.place(link)?;
        self.links[at].id(number)
    }

    /// The id that a link's server gave to the statement with this number.
    pub fn add(&mut self, link: u64, number: u32, id: u32) -> Result<(), AllocError>
        ensures ok { OnOk result (self.new ≡ with_id_on link number id self.old) }
        ensures err { OnErr result (self.new ≡ self.old) }
    {
        match self.place(link) {
            Some(at) => {
                let on = &mut self.links[at];
                on.add(number, id)
            }
            None => {
                let mut on = LinkIds::new(self.alloc, link);
                on.add(number, id)?;
                self.links.push(on)?;
                Ok(())
            }
        }
    }

    /// The id that a link's server gave to a statement that has left the table.
    pub fn add_stale(&mut self, link: u64, id: u32) -> Result<(), AllocError>
        ensures ok { OnOk result (self.new ≡ with_stale_on link id self.old) }
        ensures err { OnErr result (self.new ≡ self.old) }
    {
        match self.place(link) {
            Some(at) => {
                let on = &mut self.links[at];
                on.add_stale(id)
            }
            None => {
                let mut on = LinkIds::new(self.alloc, link);
                on.add_stale(id)?;
                self.links.push(on)?;
                Ok(())
            }
        }
    }

    /// The statement with this number has left the table: its ids are stale.
    pub fn leave(&mut self, number: u32)
        ensures { self.new ≡ left_on number self.old }
    {
        for at in 0..self.links.len() {
            let on = &mut self.links[at];
            on.leave(number);
        }
    }

    /// Takes the least stale id on a link. It looks at all stale ids of the link.
    pub fn take_least(&mut self, link: u64) -> Option<u32>
        ensures result { result ≡ least (ids_on link self.old).stale }
        ensures rest { self.new ≡ without_least_on link self.old }
    {
        let at = self.place(link)?;
        let on = &mut self.links[at];
        on.take_least()
    }

    /// Forgets all ids on a link.
    pub fn drop_link(&mut self, link: u64)
        ensures { self.new ≡ without_link link self.old }
    {
        self.links.retain(|on| !on.is_on(link));
    }
}
