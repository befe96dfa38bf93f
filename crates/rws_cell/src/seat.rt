//! The steps of a seat at the cell, in terms of its view.
ghost use Rattle.std.specs.Prelude.{◌≡◌, ◌^◌, ◌<◌, true, slice_index, IfOk, MatchResult};
ghost use Rattle.crossbeam_utils.specs.Seq.{cell_view, IsSamePass};
ghost use Rattle.rws_pool.specs.Machine.{CanStep, NotBelow};
ghost use Rattle.rws_pool.specs.History.{words_after};
ghost use Rattle.rws_pool.specs.declared.events.PoolEvent.TheVariants.{Route};
ghost use Rattle.rws_cell.specs.Views.{first_view, left_half, right_half, IsWhole, Extends, Joins};
ghost use Rattle.rws_cell.specs.Rule.{Learned, Steps};

use crate::packing::{pack, unpack};
use crate::view::{Call, Cell, Halves, Hands, Learns, Routes, Seat, Updates};
use rws_pool::{PoolEvent, PoolWords};
use std::alloc::{AllocError, Global};
use std::marker::Brand;
use std::sync::Wait;

/// A cell with new words, and its first seat. The domain isn't among the words, so any one serves here.
pub fn open(alloc: Global) -> Result<(Cell, Seat), AllocError>
    ensures { IfOk result (λ r. (r.1.table_id ≡ r.0.table.shared.table_id) × (cell_view r.1 ≡ first_view)) }
{
    Cell::ruled(alloc, pack(&PoolWords::new(0)))
}

/// Takes the pool event Route, and answers the words there.
pub fn route<R: Wait>(rt: &R, cell: &Cell, seat: &mut Seat, domain: u32) -> PoolWords
    requires cell { seat.old.table_id ≡ cell.now.table.shared.table_id }
    requires live { (cell_view seat.old).live ≡ true }
    ensures same { IsSamePass seat.old seat.new }
    ensures call { Extends (cell_view seat.old) Route (cell_view seat.new) }
    ensures words { result ≡ words_after domain (cell_view seat.new).seen }
    ensures keeps { NotBelow (words_after domain (cell_view seat.old).seen) result }
    ensures domain { result.last.domain ≡ domain }
{
    let packed = cell.load_as::<Routes, R>(rt, seat);
    unpack(domain, &packed)
}

/// Takes a pool event that changes the words.
pub fn step<R: Wait>(rt: &R, cell: &Cell, seat: &mut Seat, domain: u32, event: &PoolEvent)
    requires cell { seat.old.table_id ≡ cell.now.table.shared.table_id }
    requires live { (cell_view seat.old).live ≡ true }
    requires event { CanStep domain event.now }
    ensures same { IsSamePass seat.old seat.new }
    ensures call { Extends (cell_view seat.old) event.now (cell_view seat.new) }
{
    let mut expected = learn(rt, cell, seat);
    for _ in rt.forever() {
        match attempt(rt, cell, seat, domain, expected, event) {
            Ok(_) => return,
            Err(found) => expected = found,
        }
    }
    unreachable!()
}

/// A load that is no pool event. It answers the words, and tells what is true of the view.
pub fn learn<R: Wait>(rt: &R, cell: &Cell, seat: &mut Seat) -> [u64; 16]
    requires cell { seat.old.table_id ≡ cell.now.table.shared.table_id }
    requires live { (cell_view seat.old).live ≡ true }
    ensures same { IsSamePass seat.old seat.new }
    ensures learned { Learned (cell_view seat.old) result result (cell_view seat.new) }
{
    cell.load_as::<Learns, R>(rt, seat)
}

// One try: the event happens to the expected words, or the words are others and nothing changes.
fn attempt<R: Wait>(
    rt: &R,
    cell: &Cell,
    seat: &mut Seat,
    domain: u32,
    expected: [u64; 16],
    event: &PoolEvent,
) -> Result<[u64; 16], [u64; 16]>
    requires cell { seat.old.table_id ≡ cell.now.table.shared.table_id }
    requires live { (cell_view seat.old).live ≡ true }
    requires event { CanStep domain event.now }
    requires narrow { slice_index expected 0 < 2 ^ 32 }
    ensures same { IsSamePass seat.old seat.new }
    ensures call { MatchResult result (λ _. Extends (cell_view seat.old) event.now (cell_view seat.new)) (λ found. (cell_view seat.new ≡ cell_view seat.old) × (slice_index found 0 < 2 ^ 32)) }
{
    let mut words = unpack(domain, &expected);
    words.apply(event);
    exchange::<Brand, R>(rt, cell, seat, domain, expected, pack(&words), event)
}

// Exchanges the expected words for those after the event.
fn exchange<C: Call, R: Wait>(
    rt: &R,
    cell: &Cell,
    seat: &mut Seat,
    domain: u32,
    expected: [u64; 16],
    new: [u64; 16],
    event: &PoolEvent,
) -> Result<[u64; 16], [u64; 16]>
    requires picked { (C.event ≡ event.now) × (C.before ≡ expected) }
    requires cell { seat.old.table_id ≡ cell.now.table.shared.table_id }
    requires live { (cell_view seat.old).live ≡ true }
    requires steps { Steps domain event.now expected new }
    requires narrow { slice_index new 0 < 2 ^ 32 }
    ensures same { IsSamePass seat.old seat.new }
    ensures call { MatchResult result (λ _. Extends (cell_view seat.old) event.now (cell_view seat.new)) (λ found. (cell_view seat.new ≡ cell_view seat.old) × (slice_index found 0 < 2 ^ 32)) }
{
    cell.compare_exchange_as::<Updates<C>, R>(rt, seat, expected, new)
}

/// Cuts off a seat with a number of its own, which has seen the same.
pub fn split<R: Wait>(rt: &R, cell: &Cell, seat: &mut Seat) -> Seat
    requires cell { seat.old.table_id ≡ cell.now.table.shared.table_id }
    requires live { (cell_view seat.old).live ≡ true }
    ensures same { IsSamePass seat.old seat.new }
    ensures left { cell_view seat.new ≡ left_half (cell_view seat.old) }
    ensures cell { result.table_id ≡ seat.old.table_id }
    ensures right { cell_view result ≡ right_half (cell_view seat.old) }
    ensures whole { IsWhole (cell_view result) }
{
    let mut new = cell.split_pass::<Halves>(seat);
    learn(rt, cell, &mut new);
    new
}

/// Takes in another seat with all that it has seen and made.
pub fn join<R: Wait>(rt: &R, cell: &Cell, seat: &mut Seat, mut other: Seat)
    requires cell { (seat.old.table_id ≡ cell.now.table.shared.table_id) × (other.table_id ≡ seat.old.table_id) }
    requires live { ((cell_view seat.old).live ≡ true) × ((cell_view other).live ≡ true) }
    ensures same { IsSamePass seat.old seat.new }
    ensures joined { Joins (cell_view seat.old) (cell_view other) (cell_view seat.new) }
{
    let whole = cell.split_pass::<Hands>(&mut other);
    cell.join_pass::<Hands>(seat, whole);
    learn(rt, cell, seat);
}
