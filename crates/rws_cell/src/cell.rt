//! The cell and its passes, as their callers see them.
ghost use Rattle.std.specs.Prelude.{◌≡◌, ◌≢◌, ◌<◌, IfOk};
ghost use Rattle.rws_pool.specs.History.{words_after};
ghost use Rattle.rws_pool.specs.Machine.{NotBelow};
ghost use Rattle.rws_pool.specs.declared.events.PoolEvent.TheVariants.{Route, Record, Observe};
ghost use Rattle.rws_cell.specs.Views.{first_view, left_half, right_half, IsWhole, Extends, Joins};

use crate::seat;
use crate::view::{Cell, Seat};
use rws_gtid::Gtid;
use rws_pool::{PoolEvent, PoolWords, Round};
use std::alloc::{AllocError, Global};
use std::marker::Model;
use std::sync::Wait;

/// The pool words of one domain, which all workers share. Each call may wait for another's step.
#[derive(Drop)]
pub struct PoolCell {
    domain: u32,
    cell: Cell,
}

impl Model for PoolCell {
    ghost use Rattle.rws_cell.specs.Shown.{ShownCell};

    ghost Value = { ShownCell };

    ghost view = { λ c. record { domain = c.domain; cell = c.cell.table.shared.table_id } };
}

/// What one worker has seen of the history of a cell, and its own calls in it. It has no bytes.
#[derive(Drop)]
pub struct Pass {
    seat: Seat,
}

impl Model for Pass {
    ghost use Rattle.crossbeam_utils.specs.Seq.{cell_view};
    ghost use Rattle.rws_cell.specs.Views.{IsWhole};
    ghost use Rattle.rws_cell.specs.Shown.{ShownPass};

    ghost Value = { ShownPass };

    ghost view = { λ p. record { cell = p.seat.table_id; view = cell_view p.seat } };

    ghost invariant = { λ p. IsWhole (cell_view p.seat) };
}

impl PoolCell {
    /// A cell with new words, and the first pass, for whom the history is empty.
    pub fn new(alloc: Global, domain: u32) -> Result<(PoolCell, Pass), AllocError>
        ensures domain { IfOk result (λ made. made.0.domain ≡ domain) }
        ensures cell { IfOk result (λ made. made.1.cell ≡ made.0.cell) }
        ensures view { IfOk result (λ made. made.1.view ≡ first_view) }
    {
        let (cell, seat) = seat::open(alloc)?;
        Ok((PoolCell { domain, cell }, Pass { seat }))
    }

    /// The words at this call's place in the history.
    pub fn route<R: Wait>(&self, rt: &R, pass: &mut Pass) -> PoolWords
        requires { pass.old.cell ≡ self.now.cell }
        ensures cell { pass.new.cell ≡ pass.old.cell }
        ensures call { Extends pass.old.view Route pass.new.view }
        ensures words { result ≡ words_after self.now.domain pass.new.view.seen }
        ensures keeps { NotBelow (words_after self.now.domain pass.old.view.seen) result }
        ensures domain { result.last.domain ≡ self.now.domain }
    {
        seat::route(rt, &self.cell, &mut pass.seat, self.domain)
    }

    /// Records a commit of the server at this index.
    pub fn record<R: Wait>(&self, rt: &R, pass: &mut Pass, server: u8, gtid: Gtid)
        requires cell { pass.old.cell ≡ self.now.cell }
        requires server { server < 7 }
        requires domain { gtid.domain ≡ self.now.domain }
        ensures cell { pass.new.cell ≡ pass.old.cell }
        ensures call { Extends pass.old.view (Record server gtid) pass.new.view }
    {
        let event = PoolEvent::Record { server, gtid };
        seat::step(rt, &self.cell, &mut pass.seat, self.domain, &event);
    }

    /// Takes in one round of the monitor.
    pub fn observe<R: Wait>(&self, rt: &R, pass: &mut Pass, round: &Round)
        requires { pass.old.cell ≡ self.now.cell }
        ensures cell { pass.new.cell ≡ pass.old.cell }
        ensures call { Extends pass.old.view (Observe round.now) pass.new.view }
    {
        let event = PoolEvent::Observe { round: *round };
        seat::step(rt, &self.cell, &mut pass.seat, self.domain, &event);
    }

    /// A further pass, which has seen as much and made no call.
    pub fn split<R: Wait>(&self, rt: &R, pass: &mut Pass) -> Pass
        requires { pass.old.cell ≡ self.now.cell }
        ensures cells { (pass.new.cell ≡ pass.old.cell) × (result.cell ≡ pass.old.cell) }
        ensures this { pass.new.view ≡ left_half pass.old.view }
        ensures new { result.view ≡ right_half pass.old.view }
        ensures number { result.view.number ≢ pass.new.view.number }
        ensures whole { IsWhole pass.new.view × IsWhole result.view }
    {
        Pass {
            seat: seat::split(rt, &self.cell, &mut pass.seat),
        }
    }

    /// Takes in another pass: what it has seen, and its calls at their places.
    pub fn join<R: Wait>(&self, rt: &R, pass: &mut Pass, other: Pass)
        requires cell { pass.old.cell ≡ self.now.cell }
        requires other { other.cell ≡ self.now.cell }
        ensures cell { pass.new.cell ≡ pass.old.cell }
        ensures joined { Joins pass.old.view other.view pass.new.view }
    {
        let Pass { seat: other } = other;
        seat::join(rt, &self.cell, &mut pass.seat, other);
    }
}
