//! A maker of boards in memory. It holds the plans of its boards, and all that came back.
ghost use Rattle.std.specs.Prelude.{◌≡◌, ◌+◌, ◌≤◌, ◌↔◌, ◌∷◌, [], ◌++◌, List, None, length, slice_get, IfOk, IsErr, IsErrOf, MatchResult, OnOk, OnErr, vec_len, vec_capacity};
ghost use Rattle.rws_board.specs.Faults.{Rises};
ghost use Rattle.rws_make.specs.Makers.{CountsBack, Making};
ghost use Rattle.rws_make.specs.Makers.Making.{Made, Refused, TookBack};
ghost use Rattle.rws_make.specs.Plans.{ListMakerState, ListMakerDid};
ghost use Rattle.rws_make.specs.declared.planned_board.PlannedBoard.{PlannedBoard};

use crate::{BoardList, BoardMaker, MakeFault, PlannedBoard};
use rws_config::Config;
use std::alloc::{AllocError, Global};
use std::marker::Model;

/// Makes each board by the plan of its place, and remembers the places that were asked for and the boards that came back.
#[derive(Debug, Drop)]
pub struct ListMaker {
    plans: BoardList,
    asked: Vec<u32>,
    back: Vec<PlannedBoard>,
    lent: usize,
    faults: u64,
    // The boards that are out have room among those that came back.
    ghost room: { vec_len back + lent ≤ vec_capacity back },
}

impl Model for ListMaker {
    ghost use Rattle.rws_make.specs.Plans.{ListMakerState};

    ghost Value = { ListMakerState };

    ghost view = { λ m. record { plans = m.plans; asked = m.asked.items; back = m.back.items; lent = m.lent; faults = m.faults } };
}

impl ListMaker {
    /// A maker of boards by these plans.
    pub fn new(alloc: Global, plans: BoardList) -> ListMaker
        ensures { result ≡ record { plans = plans; asked = []; back = []; lent = 0; faults = 0 } }
    {
        ListMaker {
            plans,
            asked: Vec::new(alloc),
            back: Vec::new(alloc),
            lent: 0,
            faults: 0,
        }
    }

    /// The boards that came back, in order.
    pub fn boards(&self) -> &[PlannedBoard]
        ensures { result.now ≡ self.now.back }
    {
        self.back.as_slice()
    }
}

impl ListMaker {
    /// Makes the board of a place, if there is a plan for it.
    fn put_out(&mut self, place: u32) -> Result<PlannedBoard, MakeFault>
        ensures did { MatchResult result
            (λ board. ListMakerDid self.old self.new (Made place board ∷ []))
            (λ fault. ListMakerDid self.old self.new (Refused place fault ∷ [])) }
        ensures fresh { IfOk result (λ board. board.faults ≡ 0) }
        ensures lent { OnOk result (self.new.lent ≡ self.old.lent + 1) }
        ensures kept { OnErr result (self.new.lent ≡ self.old.lent) }
        ensures counts { self.old.faults ≤ self.new.faults }
        ensures failed { IsErrOf result MakeFault.Failed → Rises self.old.faults self.new.faults }
        ensures refused { IsErrOf result MakeFault.Failed → slice_get self.old.plans place ≡ None }
        ensures planned { slice_get self.old.plans place ≡ None → IsErr result }
    {
        let Some(plan) = self.plans.get(place as usize) else {
            note(&mut self.asked, place)?;
            self.faults = self.faults.saturating_add(1);
            return Err(MakeFault::Failed);
        };
        let board = plan.board()?;
        let lent = one_board_more(self.lent)?;
        self.back.reserve(lent)?;
        note(&mut self.asked, place)?;
        self.lent = lent;
        Ok(board)
    }

    /// Keeps a board that comes back.
    fn put_away(&mut self, board: PlannedBoard)
        requires { 1 ≤ self.old.lent }
        ensures did { ListMakerDid self.old self.new (TookBack board ∷ []) }
        ensures lent { self.new.lent + 1 ≡ self.old.lent }
        ensures counts { CountsBack board.faults self.old.faults self.new.faults }
    {
        self.faults = with_board(self.faults, board.faults());
        self.lent -= 1;
        self.back.push_reserved(board);
    }
}

impl BoardMaker for ListMaker {
    type Made = PlannedBoard;

    ghost did = { ListMakerDid };

    ghost lent = { λ m. m.lent };

    ghost faults = { λ m. m.faults };

    fn make(
        &mut self,
        _alloc: Global,
        place: u32,
        _config: &Config,
    ) -> Result<PlannedBoard, MakeFault>
        ensures did { (start : ListMakerState) (before : List (Making PlannedBoard)) → ListMakerDid start self.old before → MatchResult result
            (λ board. ListMakerDid start self.new (before ++ Made place board ∷ []))
            (λ fault. ListMakerDid start self.new (before ++ Refused place fault ∷ [])) }
        ensures fresh { IfOk result (λ board. board.faults ≡ 0) }
        ensures lent { OnOk result (self.new.lent ≡ self.old.lent + 1) }
        ensures kept { OnErr result (self.new.lent ≡ self.old.lent) }
        ensures counts { self.old.faults ≤ self.new.faults }
        ensures failed { IsErrOf result MakeFault.Failed → Rises self.old.faults self.new.faults }
        ensures refused { IsErrOf result MakeFault.Failed → slice_get self.old.plans place ≡ None }
        ensures planned { slice_get self.old.plans place ≡ None → IsErr result }
    {
        self.put_out(place)
    }

    fn take_back(&mut self, board: PlannedBoard)
        requires { 1 ≤ self.old.lent }
        ensures did { (start : ListMakerState) (before : List (Making PlannedBoard)) → ListMakerDid start self.old before → ListMakerDid start self.new (before ++ TookBack board ∷ []) }
        ensures lent { self.new.lent + 1 ≡ self.old.lent }
        ensures counts { CountsBack board.faults self.old.faults self.new.faults }
    {
        self.put_away(board);
    }

    ghost use Rattle.std.specs.Prelude.{refl};
    ghost use Rattle.std.proofs.Common.{sym, append-nil};

    ghost did_nothing = { λ maker. record { plans = refl; asked = sym (append-nil maker.asked); back = sym (append-nil maker.back); planned = tt } };
}

/// One more than a count of boards.
fn one_board_more(count: usize) -> Result<usize, AllocError>
    ensures { IfOk result (λ more. more ≡ count + 1) }
{
    count.checked_add(1).ok_or(AllocError)
}

/// Remembers that a place was asked for.
fn note(asked: &mut Vec<u32>, place: u32) -> Result<(), AllocError>
    ensures ok { OnOk result (asked.new.items ≡ asked.old.items ++ place ∷ []) }
    ensures err { OnErr result (asked.new.items ≡ asked.old.items) }
{
    asked.push(place)?;
    Ok(())
}

/// A maker's count of faults after a board came back with this count of its own.
pub fn with_board(faults: u64, board: u64) -> u64
    ensures { CountsBack board faults result }
{
    if board == 0 {
        faults
    } else {
        faults.saturating_add(1)
    }
}
