//! A place in a trace: the number of the next line, and all that the lines before say of those behind.
ghost use Rattle.std.specs.Prelude.{◌≡◌, ◌+◌, ◌≤◌, List, ◌∷◌, ℕ, None, Some, Ok, length, IfOk, OnErr};
ghost use Rattle.rws_trace.specs.Counting.{IsCounted};
ghost use Rattle.rws_trace.specs.EventLine.{meaning_of};
ghost use Rattle.rws_trace.specs.Reader.{IsFound, IsNextIf, TellsIf, script_at, told_count};
ghost use Rattle.rws_trace.specs.Script.{first_order, in_order};
ghost use Rattle.rws_board.specs.declared.event.Event.TheVariants.{End};
ghost use Rattle.rws_trace.specs.declared.event_line.TheConstants.{LAST_LINE, MAX_LINE};

use crate::event_line::{EventLine, LAST_LINE, read_line};
use crate::found::Found;
use crate::order::Order;
use crate::settings::TraceSettings;
use rws_board::Event;
use std::alloc::{AllocError, Global};

/// Where in a trace a reader stands.
#[derive(Clone, Copy)]
pub struct Place {
    /// What the lines are read by.
    pub settings: TraceSettings,
    /// The number of the next line, from 1.
    pub number: u64,
    /// What the lines before say of those behind.
    pub order: Order,
    /// How many events were told, the end left out.
    pub events: u64,
    /// The bad line at which the script stopped.
    pub bad_line: Option<u64>,
}

impl Place {
    /// The start of a trace.
    pub fn start(settings: TraceSettings) -> Place
        ensures value { result ≡ record { settings = settings; number = 1; order = first_order; events = 0; bad_line = None } }
        ensures counted { IsCounted result }
    {
        Place {
            settings,
            number: 1,
            order: Order { begun: 0, clock: 0 },
            events: 0,
            bad_line: None,
        }
    }

    /// Goes behind what comes next, and tells the event that it says, if it says one.
    pub fn pass(
        &mut self,
        alloc: Global,
        found: Found,
        line: &[u8],
    ) -> Result<Option<Event>, AllocError>
        requires counted { IsCounted self.old }
        requires going { self.old.bad_line ≡ None }
        requires short { found ≡ Found.Line → length line.now ≤ MAX_LINE }
        ensures told { IfOk result (λ told. (before rest : List ℕ) → IsFound found line.now before rest
            → TellsIf told self.old self.new before rest) }
        ensures counted { IsCounted self.new }
        ensures events { IfOk result (λ told. self.new.events ≡ self.old.events + told_count told) }
        ensures silent { result ≡ Ok None → self.new ≡ record self.old { number = self.old.number + 1 } }
        ensures err { OnErr result (self.new ≡ self.old) }
        ensures end { result ≡ Ok (Some End) → self.new.bad_line ≡ None → found ≡ Found.Nothing }
    {
        match found {
            Found::Nothing => Ok(Some(Event::End)),
            Found::TooLong => Ok(Some(self.stop())),
            Found::Line => self.pass_line(alloc, line),
        }
    }

    // Goes behind a line that isn't too long.
    fn pass_line(&mut self, alloc: Global, line: &[u8]) -> Result<Option<Event>, AllocError>
        requires counted { IsCounted self.old }
        requires going { self.old.bad_line ≡ None }
        requires short { length line.now ≤ MAX_LINE }
        ensures told { IfOk result (λ told. (lines : List (List ℕ)) →
            IsNextIf told self.new.bad_line (script_at self.old (line.now ∷ lines)) (script_at self.new lines)) }
        ensures counted { IsCounted self.new }
        ensures events { IfOk result (λ told. self.new.events ≡ self.old.events + told_count told) }
        ensures silent { result ≡ Ok None → self.new ≡ record self.old { number = self.old.number + 1 } }
        ensures err { OnErr result (self.new ≡ self.old) }
        ensures end { result ≡ Ok (Some End) → self.new.bad_line ≡ None → ⊥ }
    {
        if self.number == LAST_LINE {
            return Ok(Some(self.stop()));
        }
        match read_in_order(alloc, self.settings, line, self.order)? {
            EventLine::Silent => {
                self.number += 1;
                Ok(None)
            }
            EventLine::Says(event) => {
                self.order = self.order.after(&event);
                self.number += 1;
                self.events += 1;
                Ok(Some(event))
            }
            EventLine::Bad => Ok(Some(self.stop())),
        }
    }

    // The script stops at this line.
    fn stop(&mut self) -> Event
        ensures end { result ≡ End }
        ensures stopped { self.new ≡ record self.old { bad_line = Some self.old.number } }
    {
        self.bad_line = Some(self.number);
        Event::End
    }
}

// What a line says in this order.
fn read_in_order(
    alloc: Global,
    settings: TraceSettings,
    line: &[u8],
    order: Order,
) -> Result<EventLine, AllocError>
    ensures { IfOk result (λ meaning. meaning ≡ in_order order (meaning_of settings line.now)) }
{
    match read_line(alloc, settings, line)? {
        EventLine::Says(event) if !order.allows(&event) => Ok(EventLine::Bad),
        meaning => Ok(meaning),
    }
}
