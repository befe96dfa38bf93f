//! A board in memory. It holds the events that it is still to give, and all that it did.
ghost use Rattle.std.specs.Prelude.{List, ◌≡◌, ◌≤◌, ◌↔◌, ◌∷◌, [], ◌++◌, ◌⊎◌, Contains, IfOk, IsErr, IsErrOf, MatchResult, OnOk, OnErr};
ghost use Rattle.rws_board.specs.Boards.{ListBoardState, ListDid, given, standing_after};
ghost use Rattle.rws_board.specs.Boards.Standing.{Going, NextFailed, ActFailed};
ghost use Rattle.rws_board.specs.Faults.{Rises, one_more};
ghost use Rattle.rws_board.specs.declared.interaction.Interaction.{Interaction};
ghost use Rattle.rws_board.specs.declared.interaction.Interaction.TheVariants.{Gave, Told, Took};

use crate::planned_faults::PlannedFaults;
use crate::{Action, Board, BoardFault, CallList, Event, EventList, Interaction};
use rws_pool::PoolCall;
use std::alloc::{AllocError, Global};
use std::collections::VecDeque;
use std::marker::Model;

/// A board that gives these events and then the end, and remembers all that it did. It gives the end too where the list
/// has it. Some calls fail.
#[derive(Debug, Drop)]
pub struct ListBoard {
    ahead: VecDeque<Event>,
    done: Vec<Interaction>,
    plan: PlannedFaults,
}

impl Model for ListBoard {
    ghost use Rattle.rws_board.specs.Boards.{ListBoardState};

    ghost Value = { ListBoardState };

    ghost view = { λ b. record { ahead = b.ahead.items; done = b.done.items; fails = b.plan.fails; calls = b.plan.calls; faults = b.plan.faults } };
}

impl ListBoard {
    /// `fails` are the numbers, from 0, of the calls that are to fail.
    pub fn new(alloc: Global, events: EventList, fails: CallList) -> Result<ListBoard, AllocError>
        ensures { IfOk result (λ board. board ≡ record { ahead = events; done = []; fails = fails; calls = 0; faults = 0 }) }
    {
        Ok(ListBoard {
            ahead: VecDeque::from(events.into_vec()),
            done: Vec::new(alloc),
            plan: PlannedFaults::new(fails),
        })
    }

    /// What the board did, oldest first. The end isn't there.
    pub fn interactions(&self) -> &[Interaction]
        ensures { result.now ≡ self.now.done }
    {
        self.done.as_slice()
    }
}

impl ListBoard {
    // Gives the event at the front of those ahead.
    fn give(&mut self) -> Result<Event, BoardFault>
        ensures did { MatchResult result
            (λ event. ListDid self.old self.new (given event) (standing_after event))
            (λ fault. ListDid self.old self.new [] (NextFailed fault)) }
        ensures counts { self.old.faults ≤ self.new.faults }
        ensures failed { IsErrOf result BoardFault.Failed → Rises self.old.faults self.new.faults }
        ensures planned { IsErrOf result BoardFault.Failed ↔ Contains self.old.fails self.old.calls }
        ensures calls { self.new.calls ≡ one_more self.old.calls }
        ensures fails { self.new.fails ≡ self.old.fails }
        ensures ok { OnOk result (self.new.faults ≡ self.old.faults) }
    {
        self.plan.call()?;
        match self.ahead.pop_front() {
            None | Some(Event::End) => Ok(Event::End),
            Some(event) => Ok(note(&mut self.done, event)?),
        }
    }

    // Remembers an action, unless there is no memory for it.
    fn take(&mut self, action: Action) -> Result<(), BoardFault>
        ensures did { MatchResult result
            (λ _. ListDid self.old self.new (Took action ∷ []) Going)
            (λ fault. ListDid self.old self.new (Took action ∷ []) (ActFailed fault)) }
        ensures counts { self.old.faults ≤ self.new.faults }
        ensures failed { IsErrOf result BoardFault.Failed → Rises self.old.faults self.new.faults }
        ensures planned { IsErrOf result BoardFault.Failed ↔ Contains self.old.fails self.old.calls }
        ensures calls { self.new.calls ≡ one_more self.old.calls }
        ensures fails { self.new.fails ≡ self.old.fails }
        ensures ok { OnOk result (self.new.faults ≡ self.old.faults) }
    {
        self.plan.call()?;
        remember(&mut self.done, Interaction::Took(action))?;
        Ok(())
    }

    // Remembers a step of the pool, unless there is no memory for it.
    fn hear(&mut self, call: PoolCall) -> Result<(), BoardFault>
        ensures did { MatchResult result
            (λ _. ListDid self.old self.new (Told call ∷ []) Going)
            (λ fault. ListDid self.old self.new (Told call ∷ []) (ActFailed fault)) }
        ensures counts { self.old.faults ≤ self.new.faults }
        ensures failed { IsErrOf result BoardFault.Failed → Rises self.old.faults self.new.faults }
        ensures planned { IsErrOf result BoardFault.Failed ↔ Contains self.old.fails self.old.calls }
        ensures calls { self.new.calls ≡ one_more self.old.calls }
        ensures fails { self.new.fails ≡ self.old.fails }
        ensures ok { OnOk result (self.new.faults ≡ self.old.faults) }
    {
        self.plan.call()?;
        remember(&mut self.done, Interaction::Told(call))?;
        Ok(())
    }
}

impl Board for ListBoard {
    ghost did = { ListDid };

    ghost faults = { λ b. b.faults };

    /// Waits for nothing.
    fn next(&mut self, _wait_ms: u64) -> Result<Event, BoardFault>
        ensures did { (start : ListBoardState) (before : List Interaction) → ListDid start self.old before Going → MatchResult result
            (λ event. ListDid start self.new (before ++ given event) (standing_after event))
            (λ fault. ListDid start self.new before (NextFailed fault)) }
        ensures counts { self.old.faults ≤ self.new.faults }
        ensures failed { IsErrOf result BoardFault.Failed → Rises self.old.faults self.new.faults }
        ensures planned { IsErrOf result BoardFault.Failed ↔ Contains self.old.fails self.old.calls }
        ensures calls { self.new.calls ≡ one_more self.old.calls }
        ensures fails { self.new.fails ≡ self.old.fails }
        ensures ok { OnOk result (self.new.faults ≡ self.old.faults) }
    {
        self.give()
    }

    fn act(&mut self, action: Action) -> Result<(), BoardFault>
        ensures did { (start : ListBoardState) (before : List Interaction) → ListDid start self.old before Going → MatchResult result
            (λ _. ListDid start self.new (before ++ Took action ∷ []) Going)
            (λ fault. ListDid start self.new (before ++ Took action ∷ []) (ActFailed fault)) }
        ensures counts { self.old.faults ≤ self.new.faults }
        ensures failed { IsErrOf result BoardFault.Failed → Rises self.old.faults self.new.faults }
        ensures planned { IsErrOf result BoardFault.Failed ↔ Contains self.old.fails self.old.calls }
        ensures calls { self.new.calls ≡ one_more self.old.calls }
        ensures fails { self.new.fails ≡ self.old.fails }
        ensures ok { OnOk result (self.new.faults ≡ self.old.faults) }
    {
        self.take(action)
    }

    fn tell(&mut self, call: &PoolCall) -> Result<(), BoardFault>
        ensures did { (start : ListBoardState) (before : List Interaction) → ListDid start self.old before Going → MatchResult result
            (λ _. ListDid start self.new (before ++ Told call.now ∷ []) Going)
            (λ fault. ListDid start self.new (before ++ Told call.now ∷ []) (ActFailed fault)) }
        ensures counts { self.old.faults ≤ self.new.faults }
        ensures failed { IsErrOf result BoardFault.Failed → Rises self.old.faults self.new.faults }
        ensures planned { IsErrOf result BoardFault.Failed ↔ Contains self.old.fails self.old.calls }
        ensures calls { self.new.calls ≡ one_more self.old.calls }
        ensures fails { self.new.fails ≡ self.old.fails }
        ensures ok { OnOk result (self.new.faults ≡ self.old.faults) }
    {
        self.hear(*call)
    }

    ghost use Rattle.std.specs.Prelude.{refl};
    ghost use Rattle.std.proofs.Common.{sym, append-nil};

    ghost did_nothing = { λ board. (sym (append-nil board.done), refl) };
}

// Remembers that the event was given, and gives it.
fn note(done: &mut Vec<Interaction>, event: Event) -> Result<Event, AllocError>
    ensures ok { IfOk result (λ given. (given ≡ event) × (done.new.items ≡ done.old.items ++ Gave event ∷ [])) }
    ensures err { OnErr result (done.new.items ≡ done.old.items) }
{
    let copy = event.clone()?;
    remember(done, Interaction::Gave(copy))?;
    Ok(event)
}

// Puts one more interaction at the end.
fn remember(done: &mut Vec<Interaction>, interaction: Interaction) -> Result<(), AllocError>
    ensures ok { OnOk result (done.new.items ≡ done.old.items ++ interaction ∷ []) }
    ensures err { OnErr result (done.new.items ≡ done.old.items) }
{
    done.push(interaction)?;
    Ok(())
}
