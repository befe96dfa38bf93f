//! Boards in memory that are still to be made.
ghost use Rattle.std.specs.Prelude.{◌≡◌, ◌++◌, List, [], ◌∷◌, ℕ, None, Some, take, slice_get, IfOk, OnOk, OnErr, MatchOption};
ghost use Rattle.std.specs.Option.{option_copied};
ghost use Rattle.rws_make.specs.Plans.{Plan, board_of};

use crate::PlannedBoard;
use rws_board::{CallList, Event, EventList, ListBoard};
use std::alloc::{AllocError, Global};
use std::marker::Model;

/// What a board in memory is to give, and which of its calls are to fail. The same plan makes any number of boards.
#[derive(Debug, Drop)]
pub struct BoardPlan {
    alloc: Global,
    events: Vec<Event>,
    fails: Vec<u64>,
}

impl Model for BoardPlan {
    ghost use Rattle.rws_make.specs.Plans.{Plan};

    ghost Value = { Plan };

    ghost view = { λ plan. record { events = plan.events.items; fails = plan.fails.items } };
}

impl BoardPlan {
    /// A board without events, of which no call fails. It takes no memory.
    pub fn new(alloc: Global) -> BoardPlan
        ensures { result ≡ record { events = []; fails = [] } }
    {
        BoardPlan {
            alloc,
            events: Vec::new(alloc),
            fails: Vec::new(alloc),
        }
    }

    /// One more event is to come at the end.
    pub fn push_event(&mut self, event: Event) -> Result<(), AllocError>
        ensures ok { OnOk result (self.new ≡ record self.old { events = self.old.events ++ event ∷ [] }) }
        ensures err { OnErr result (self.new ≡ self.old) }
    {
        self.events.push(event)?;
        Ok(())
    }

    /// The call of this number, counted from 0, is to fail.
    pub fn push_failure(&mut self, call: u64) -> Result<(), AllocError>
        ensures ok { OnOk result (self.new ≡ record self.old { fails = self.old.fails ++ call ∷ [] }) }
        ensures err { OnErr result (self.new ≡ self.old) }
    {
        self.fails.push(call)?;
        Ok(())
    }

    /// A board by this plan.
    pub(crate) fn board(&self) -> Result<PlannedBoard, AllocError>
        ensures { IfOk result (λ board. board ≡ board_of self.now) }
    {
        let events = copied(self.alloc, self.events.as_slice())?;
        let fails = CallList::from_slice(self.alloc, self.fails.as_slice())?;
        let board = ListBoard::new(self.alloc, events, fails)?;
        Ok(PlannedBoard::new(board))
    }
}

/// A list of the same events.
fn copied(alloc: Global, events: &[Event]) -> Result<EventList, AllocError>
    ensures { IfOk result (λ list. list ≡ events.now) }
{
    let mut list = EventList::new(alloc);
    for event in events {
        list.push(event.clone()?)?;
    }
    Ok(list)
}

/// Plans by the places of their boards.
#[derive(Debug, Drop)]
pub struct BoardList {
    plans: Vec<BoardPlan>,
}

impl Model for BoardList {
    ghost use Rattle.std.specs.Prelude.{List};
    ghost use Rattle.rws_make.specs.Plans.{Plan};

    ghost Value = { List Plan };

    ghost view = { λ list. list.plans.items };
}

impl BoardList {
    /// No boards, which takes no memory.
    pub fn new(alloc: Global) -> BoardList
        ensures { result ≡ [] }
    {
        BoardList {
            plans: Vec::new(alloc),
        }
    }

    /// The plan of the next place.
    pub fn push(&mut self, plan: BoardPlan) -> Result<(), AllocError>
        ensures ok { OnOk result (self.new ≡ self.old ++ plan ∷ []) }
        ensures err { OnErr result (self.new ≡ self.old) }
    {
        self.plans.push(plan)?;
        Ok(())
    }

    /// The plan of this place, counted from 0.
    pub fn get(&self, place: usize) -> Option<&BoardPlan>
        ensures { option_copied result ≡ slice_get self.now place }
    {
        self.plans.as_slice().get(place)
    }
}
