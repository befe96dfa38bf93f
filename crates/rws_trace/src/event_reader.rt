//! The events of a source that holds a trace. A reader holds at most one line and one piece, and tells each event before
//! it reads on: what it has taken from the source is whole lines whose events were told, then a part of a line.
ghost use Rattle.std.specs.Prelude.{◌≡◌, ◌+◌, ◌≤◌, ◌++◌, ℕ, List, [], None, Some, Ok, IfOk, IsErrOf, OnErr};
ghost use Rattle.std.specs.Io.KnownBytes.{IsAtEnd};
ghost use Rattle.rws_trace.specs.Counting.{IsCounted, PassesOver};
ghost use Rattle.rws_board.specs.Faults.{Rises};
ghost use Rattle.rws_trace.specs.Lines.{IsFeedless};
ghost use Rattle.rws_trace.specs.Reader.{Ahead, ReadsPart, TellsIf, TellsNext, count_of, fresh, told_count};

use crate::line_reader::LineReader;
use crate::place::Place;
use crate::read_error::ReadError;
use crate::settings::TraceSettings;
use rws_board::{Event, Source};
use std::alloc::{AllocError, Global};
use std::marker::Model;

/// Reads the events of a trace from a source that is handed to each call. The source is read in pieces, and
/// asked for more only where no whole line is held.
#[derive(Drop)]
pub struct EventReader {
    alloc: Global,
    lines: LineReader,
    place: Place,
}

impl Model for EventReader {
    ghost use Rattle.rws_trace.specs.Counting.{IsCounted};
    ghost use Rattle.rws_trace.specs.Reader.{ReaderState};

    ghost Value = { ReaderState };

    ghost view = { λ reader. record { held = reader.lines.piece; place = reader.place } };

    ghost invariant = { λ reader. IsCounted reader.place };
}

impl EventReader {
    /// A reader at the start of a trace.
    pub fn new(alloc: Global, settings: TraceSettings) -> Result<EventReader, AllocError>
        requires { (1 ≤ settings.servers) × (settings.servers ≤ 7) }
        ensures { IfOk result (λ reader. reader ≡ fresh settings) }
    {
        Ok(EventReader {
            alloc,
            lines: LineReader::new(alloc)?,
            place: Place::start(settings),
        })
    }

    /// Reads the next event: `End` at the end of the input and at a bad line. After an error the reader
    /// is not to be used again; where the source failed, all events of the whole lines that were read have been told.
    pub fn next<I: Source>(&mut self, input: &mut I) -> Result<Event, ReadError>
        ensures told { IfOk result (λ event. TellsNext self.old (I.left input.old) event self.new (I.left input.new)) }
        ensures events { IfOk result (λ event. self.new.place.events ≡ self.old.place.events + count_of event) }
        ensures end { result ≡ Ok Event.End → self.new.place.bad_line ≡ None → IsAtEnd (I.left input.new) }
        ensures err { OnErr result (PassesOver self.old.place self.new.place) }
        ensures cut { IsErrOf result ReadError.Failed →
            Ahead (ReadsPart self.old.place self.new.place []) self.old.held (I.left input.old) self.new.held (I.left input.new) }
        ensures drained { IsErrOf result ReadError.Failed → self.new.held ≡ [] }
        ensures counts { I.faults input.old ≤ I.faults input.new }
        ensures failed { IsErrOf result ReadError.Failed → Rises (I.faults input.old) (I.faults input.new) }
    {
        if self.place.bad_line.is_some() {
            return Ok(Event::End);
        }
        'lines: loop {
            if let Some(event) = self.step(input)? {
                return Ok(event);
            }
        }
    }

    /// The number, from 1, of the bad line at which the trace stopped.
    pub fn bad_line(&self) -> Option<u64>
        ensures { result ≡ self.now.place.bad_line }
    {
        self.place.bad_line
    }

    /// How many events were told, the end left out.
    pub fn events(&self) -> u64
        ensures { result ≡ self.now.place.events }
    {
        self.place.events
    }

    // Reads the next line, and tells the event that it says, if it says one.
    fn step<I: Source>(&mut self, input: &mut I) -> Result<Option<Event>, ReadError>
        requires { self.old.place.bad_line ≡ None }
        ensures told { IfOk result (λ told.
            Ahead (TellsIf told self.old.place self.new.place)
            self.old.held (I.left input.old) self.new.held (I.left input.new)) }
        ensures counted { IsCounted self.new.place }
        ensures events { IfOk result (λ told. self.new.place.events ≡ self.old.place.events + told_count told) }
        ensures end { result ≡ Ok (Some Event.End) → self.new.place.bad_line ≡ None → IsAtEnd (I.left input.new) }
        ensures silent { result ≡ Ok None → self.new.place ≡ record self.old.place { number = self.old.place.number + 1 } }
        ensures err { OnErr result (self.new.place ≡ self.old.place) }
        ensures cut { IsErrOf result ReadError.Failed →
            Ahead (λ before rest. (part : List ℕ) × IsFeedless part × (before ≡ part ++ rest))
            self.old.held (I.left input.old) self.new.held (I.left input.new) }
        ensures drained { IsErrOf result ReadError.Failed → self.new.held ≡ [] }
        ensures counts { I.faults input.old ≤ I.faults input.new }
        ensures failed { IsErrOf result ReadError.Failed → Rises (I.faults input.old) (I.faults input.new) }
    {
        let found = self.lines.next(input)?;
        Ok(self.place.pass(self.alloc, found, &self.lines.line)?)
    }
}
