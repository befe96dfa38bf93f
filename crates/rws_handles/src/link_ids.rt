//! The ids that a server gave to statements on one link: of those in the table by the client's number, and of those that
//! have left it until the server was told. There is always room for each id among the latter, so a statement leaves
//! without taking memory.
ghost use Rattle.std.specs.Prelude.{◌≡◌, ◌==◌, ◌<◌, IfSome, OnOk, OnErr, length, vec_len};
ghost use Rattle.std.specs.Vec.{vec_capacity};

use std::alloc::{AllocError, Global};
use std::collections::BTreeMap;
use std::marker::Model;

/// The ids on one link.
#[derive(Drop)]
pub struct LinkIds {
    link: u64,
    ids: BTreeMap<u32, u32>,
    stale: Vec<u32>,
}

impl Model for LinkIds {
    ghost use Rattle.rws_handles.specs.LinkIds.{Ids};

    ghost Value = { Ids };

    ghost use Rattle.rws_handles.specs.LinkIdsView.{HasRoomForAll, link_ids_view};

    ghost view = { link_ids_view };

    ghost invariant = { HasRoomForAll };
}

impl LinkIds {
    ghost use Rattle.rws_handles.specs.LinkIds.{id_of, least, no_ids, with_id, with_left, with_stale_id, without_least};

    /// No ids on this link. It takes no memory.
    pub fn new(alloc: Global, link: u64) -> LinkIds
        ensures { result ≡ no_ids link }
    {
        LinkIds {
            link,
            ids: BTreeMap::new(alloc),
            stale: Vec::new(alloc),
        }
    }

    /// Whether these are the ids on this link.
    pub fn is_on(&self, link: u64) -> bool
        ensures { result ≡ (self.now.link == link) }
    {
        self.link == link
    }

    /// The id of the statement with this number.
    pub fn id(&self, number: u32) -> Option<u32>
        ensures { result ≡ id_of number self.now }
    {
        self.ids.get(&number).copied()
    }

    /// The id that the server gave to the statement with this number. Another that it had is stale.
    pub fn add(&mut self, number: u32, id: u32) -> Result<(), AllocError>
        ensures ok { OnOk result (self.new ≡ with_id number id self.old) }
        ensures err { OnErr result (self.new ≡ self.old) }
    {
        self.stale.reserve(self.ids.len() + 1)?;
        match self.ids.insert(number, id) {
            Ok(before) => {
                put_stale(&mut self.stale, replaced(id, before));
                Ok(())
            }
            Err(_) => Err(AllocError),
        }
    }

    /// The id that the server gave to a statement that has left the table.
    pub fn add_stale(&mut self, id: u32) -> Result<(), AllocError>
        ensures ok { OnOk result (self.new ≡ with_stale_id id self.old) }
        ensures err { OnErr result (self.new ≡ self.old) }
    {
        self.stale.reserve(self.ids.len() + 1)?;
        self.stale.push_reserved(id);
        Ok(())
    }

    /// The statement with this number has left the table.
    pub fn leave(&mut self, number: u32)
        ensures { self.new ≡ with_left number self.old }
    {
        let id = self.ids.remove(&number);
        put_stale(&mut self.stale, id);
    }

    /// Takes the least id of a statement that has left. It looks at all of them.
    pub fn take_least(&mut self) -> Option<u32>
        ensures result { result ≡ least self.old.stale }
        ensures rest { self.new ≡ without_least self.old }
    {
        let found = least(&self.stale);
        if let Some(gone) = found {
            self.stale.retain(|id| *id != gone);
        }
        found
    }
}

ghost use Rattle.rws_handles.specs.LinkIds.{least, replaced, with_stale};

/// The id that another takes the place of.
fn replaced(id: u32, before: Option<u32>) -> Option<u32>
    ensures { result ≡ replaced id before }
{
    match before {
        Some(before) if before != id => Some(before),
        _ => None,
    }
}

/// Puts an id at the end, if there is one. There is room for it.
fn put_stale(stale: &mut Vec<u32>, id: Option<u32>)
    requires { IfSome id (λ _. vec_len stale.old < vec_capacity stale.old) }
    ensures items { stale.new.items ≡ with_stale stale.old.items id }
    ensures capacity { vec_capacity stale.new ≡ vec_capacity stale.old }
{
    if let Some(id) = id {
        stale.push_reserved(id);
    }
}

/// The least of the ids.
fn least(ids: &[u32]) -> Option<u32>
    ensures { result ≡ least ids.now }
{
    let (first, rest) = ids.split_first()?;
    let mut least = *first;
    'rest: for id in rest {
        least = least.min(*id);
    }
    Some(least)
}
