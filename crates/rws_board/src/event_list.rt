//! Events in order, which contracts see as a list.
ghost use Rattle.std.specs.Prelude.{◌≡◌, ◌++◌, List, [], ◌∷◌, OnOk, OnErr};

use crate::Event;
use std::alloc::{AllocError, Global};
use std::marker::Model;

/// Events in order.
#[derive(Debug, Drop)]
pub struct EventList {
    events: Vec<Event>,
}

impl Model for EventList {
    ghost use Rattle.std.specs.Prelude.{List};
    ghost use Rattle.rws_board.specs.declared.event.Event.{Event};

    ghost Value = { List Event };

    ghost view = { λ list. list.events.items };
}

impl EventList {
    /// No events, which takes no memory.
    pub fn new(alloc: Global) -> EventList
        ensures { result ≡ [] }
    {
        EventList {
            events: Vec::new(alloc),
        }
    }

    /// Puts an event at the end.
    pub fn push(&mut self, event: Event) -> Result<(), AllocError>
        ensures ok { OnOk result (self.new ≡ self.old ++ event ∷ []) }
        ensures err { OnErr result (self.new ≡ self.old) }
    {
        self.events.push(event)?;
        Ok(())
    }

    /// The events.
    pub(crate) fn into_vec(self) -> Vec<Event>
        ensures { result.items ≡ self }
    {
        self.events
    }
}
