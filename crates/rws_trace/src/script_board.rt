//! A board over a trace. It is lent its reader, its input and its output, and holds nothing of what it did: contracts
//! relate what is left of the input and what the output has taken. It owns no memory, so that a caller knows all three
//! when the board is dropped.
ghost use Rattle.std.specs.Prelude.{◌≡◌, ◌∷◌, [], None, IsErrOf, MatchResult};
ghost use Rattle.rws_board.specs.Boards.{IsHanded, given, standing_after};
ghost use Rattle.rws_board.specs.Boards.Standing.{Going, NextFailed, ActFailed};
ghost use Rattle.rws_board.specs.Faults.{Rises};
ghost use Rattle.rws_board.specs.declared.interaction.Interaction.{Interaction};
ghost use Rattle.rws_board.specs.declared.interaction.Interaction.TheVariants.{Told, Took};
ghost use Rattle.rws_trace.specs.Printing.{text_of_one};
ghost use Rattle.rws_trace.specs.ScriptState.{Did};

use crate::event_reader::EventReader;
use crate::print::{action_line, call_line};
use crate::read_error::ReadError;
use crate::side::Side;
use rws_board::{Action, Board, BoardFault, Event, Failed, Sink, Source};
use rws_pool::PoolCall;
use rws_wire::Text;
use std::alloc::{AllocError, Global};

/// A board that reads the lines of a trace as its events and prints its actions and the steps of the pool as
/// lines, each in one put and at once.
#[derive(Drop)]
pub struct ScriptBoard<'a, I: Source, O: Sink> {
    alloc: Global,
    reader: &'a mut EventReader,
    input: &'a mut I,
    out: &'a mut O,
    failed: Option<Side>,
}

impl<'a, I: Source, O: Sink> ScriptBoard<'a, I, O> {
    /// A board that reads on with this reader, and takes no memory.
    pub fn new(
        alloc: Global,
        reader: &'a mut EventReader,
        input: &'a mut I,
        out: &'a mut O,
    ) -> ScriptBoard<'a, I, O>
        ensures reader_lent { (result.reader.ghost_name ≡ reader.entry.ghost_name) × (result.reader.now ≡ reader.old) }
        ensures input_lent { (result.input.ghost_name ≡ input.entry.ghost_name) × (result.input.now ≡ input.old) }
        ensures out_lent { (result.out.ghost_name ≡ out.entry.ghost_name) × (result.out.now ≡ out.old) }
        ensures starts { result.failed ≡ None }
    {
        ScriptBoard {
            alloc,
            reader,
            input,
            out,
            failed: None,
        }
    }

    /// The side that failed, after a failed call.
    pub fn failed(&self) -> Option<Side>
        ensures { result ≡ self.now.failed }
    {
        self.failed
    }

    /// The number, from 1, of the bad line at which the trace stopped.
    pub fn bad_line(&self) -> Option<u64>
        ensures { result ≡ self.now.reader.now.place.bad_line }
    {
        self.reader.bad_line()
    }

    /// How many events were given, the end left out.
    pub fn events(&self) -> u64
        ensures { result ≡ self.now.reader.now.place.events }
    {
        self.reader.events()
    }
}

impl<'a, I: Source, O: Sink> ScriptBoard<'a, I, O> {
    // Reads the next event.
    fn read(&mut self) -> Result<Event, BoardFault>
        ensures did { MatchResult result
            (λ event. Did I.left I.faults O.taken O.faults self.old self.new (given event) (standing_after event))
            (λ fault. Did I.left I.faults O.taken O.faults self.old self.new [] (NextFailed fault)) }
        ensures failed { IsErrOf result BoardFault.Failed → Rises (I.faults self.old.input.now) (I.faults self.new.input.now) }
    {
        match self.reader.next(&mut *self.input) {
            Ok(event) => Ok(event),
            Err(ReadError::Failed) => {
                self.failed = Some(Side::Input);
                Err(BoardFault::Failed)
            }
            Err(ReadError::OutOfMemory) => Err(BoardFault::OutOfMemory),
        }
    }

    // Prints the line of an action.
    fn print(&mut self, action: &Action) -> Result<(), BoardFault>
        ensures did { MatchResult result
            (λ _. Did I.left I.faults O.taken O.faults self.old self.new (Took action.now ∷ []) Going)
            (λ fault. Did I.left I.faults O.taken O.faults self.old self.new (Took action.now ∷ []) (ActFailed fault)) }
        ensures failed { IsErrOf result BoardFault.Failed → Rises (O.faults self.old.out.now) (O.faults self.new.out.now) }
    {
        match action_line(self.alloc, action) {
            Ok(line) => self.put(&line),
            Err(AllocError) => Err(BoardFault::OutOfMemory),
        }
    }

    // Prints the line of a step of the pool.
    fn print_call(&mut self, call: &PoolCall) -> Result<(), BoardFault>
        ensures did { MatchResult result
            (λ _. Did I.left I.faults O.taken O.faults self.old self.new (Told call.now ∷ []) Going)
            (λ fault. Did I.left I.faults O.taken O.faults self.old self.new (Told call.now ∷ []) (ActFailed fault)) }
        ensures failed { IsErrOf result BoardFault.Failed → Rises (O.faults self.old.out.now) (O.faults self.new.out.now) }
    {
        match call_line(self.alloc, call) {
            Ok(line) => self.put(&line),
            Err(AllocError) => Err(BoardFault::OutOfMemory),
        }
    }

    // Puts the line of what the board was handed.
    fn put(&mut self, line: &Text) -> Result<(), BoardFault>
        ensures did { (handed : Interaction) → IsHanded handed → text_of_one handed ≡ line.now → MatchResult result
            (λ _. Did I.left I.faults O.taken O.faults self.old self.new (handed ∷ []) Going)
            (λ fault. Did I.left I.faults O.taken O.faults self.old self.new (handed ∷ []) (ActFailed fault)) }
        ensures failed { IsErrOf result BoardFault.Failed → Rises (O.faults self.old.out.now) (O.faults self.new.out.now) }
    {
        match self.out.put(line.as_slice()) {
            Ok(()) => Ok(()),
            Err(Failed) => {
                self.failed = Some(Side::Output);
                Err(BoardFault::Failed)
            }
        }
    }
}

impl<'a, I: Source, O: Sink> Board for ScriptBoard<'a, I, O> {
    ghost use Rattle.rws_trace.specs.ScriptState.{Did};
    ghost use Rattle.rws_trace.specs.ScriptBoards.{both_counts};

    ghost did = { Did I.left I.faults O.taken O.faults };

    ghost faults = { λ board. both_counts (I.faults board.input.now) (O.faults board.out.now) };

    fn next(&mut self, _wait_ms: u64) -> Result<Event, BoardFault> {
        self.read()
    }

    fn act(&mut self, action: Action) -> Result<(), BoardFault> {
        self.print(&action)
    }

    fn tell(&mut self, call: &PoolCall) -> Result<(), BoardFault> {
        self.print_call(call)
    }

    ghost use Rattle.std.specs.Prelude.{refl};
    ghost use Rattle.rws_trace.specs.ScriptState.{did_nothing};

    ghost did_nothing = { λ board. record { reader = refl; input = refl; out = refl; did = did_nothing _ } };
}
