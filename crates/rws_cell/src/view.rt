//! What a pass knows of the one history, and the rule that ties it to the words of the cell. No value of a view is made.
use atomic_table::{Join, Split};
use crossbeam_utils::atomic::seq_cell;
use crossbeam_utils::atomic::seq_cell::RuledSeqCell;
use crossbeam_utils::rule::{Outcome, Protocol};
use rws_pool::{Entry, PoolEvent};
use std::collections::LinkedList;
use std::marker::{Brand, PhantomData};

/// A pass that was joined into another: its numbers and its calls.
pub struct Part {
    /// The number under which its calls stand.
    pub number: u64,
    /// The distance of the numbers that it could still have given away.
    pub step: u64,
    /// Its calls, in the order of the history.
    pub calls: LinkedList<PoolEvent>,
}

/// What a pass has seen of the history, and its own calls in it.
pub struct View {
    /// Whether the pass is in use. One that was handed over to a join has no numbers and no calls.
    pub live: bool,
    /// The number under which its calls stand.
    pub number: u64,
    /// The distance of the numbers that it may give away.
    pub step: u64,
    /// The history up to the last entry that it knows of.
    pub seen: LinkedList<Entry>,
    /// A shorter history that begins the one seen.
    pub told: LinkedList<Entry>,
    /// Its own calls, in the order of the history.
    pub mine: LinkedList<PoolEvent>,
    /// The passes that were joined into it, and those that had been joined into them.
    pub joined: LinkedList<Part>,
}

/// There is one history, and the words are those after it.
pub struct OneHistory;

impl Protocol<[u64; 16], View> for OneHistory {
    ghost use Rattle.rws_cell.specs.Rule.{Kept};
    ghost use Rattle.rws_cell.specs.Views.{first_view};

    ghost holds = { Kept };

    ghost first = { first_view };
}

// A load that is the pool event Route.
pub struct Routes;

impl Outcome<[u64; 16], View> for Routes {
    ghost use Rattle.rws_cell.specs.Rule.{Routed};

    ghost then = { Routed };
}

// A load that is no pool event.
pub struct Learns;

impl Outcome<[u64; 16], View> for Learns {
    ghost use Rattle.rws_cell.specs.Rule.{Learned};

    ghost then = { Learned };
}

// The call that an exchange makes, and the words that it expects. Each caller picks them.
pub trait Call {
    ghost use Rattle.std.specs.Prelude.{ℕ, List};
    ghost use Rattle.rws_pool.specs.declared.events.PoolEvent.{PoolEvent};

    ghost event: { PoolEvent };

    ghost before: { List ℕ };
}

// A placeholder, so that `exchange` can be called at a type: `attempt` picks the real call and words.
impl Call for Brand {
    ghost use Rattle.std.specs.Prelude.{[]};
    ghost use Rattle.rws_pool.specs.declared.events.PoolEvent.TheVariants.{Route};

    ghost event = { Route };

    ghost before = { [] };
}

// An exchange of the words.
pub struct Updates<C> {
    call: PhantomData<C>,
}

impl<C: Call> Outcome<[u64; 16], View> for Updates<C> {
    ghost use Rattle.rws_cell.specs.Rule.{Updated};

    ghost then = { Updated C.event C.before };
}

// Cuts the numbers that a pass may give away in two.
pub struct Halves;

impl Split<View> for Halves {
    ghost use Rattle.rws_cell.specs.Views.{left_half, right_half};

    ghost left = { left_half };

    ghost right = { right_half };
}

// Hands the whole view over to a seat that has made no call yet, and takes it in.
pub struct Hands;

impl Split<View> for Hands {
    ghost use Rattle.rws_cell.specs.Rule.{nobody};

    ghost left = { λ v. nobody };

    ghost right = { λ v. v };
}

impl Join<View> for Hands {
    ghost use Rattle.rws_cell.specs.Rule.{nobody};
    ghost use Rattle.rws_cell.specs.Views.{both_views};

    ghost both = { both_views };

    ghost spent = { nobody };
}

/// The sixteen words under the rule.
pub type Cell = RuledSeqCell<[u64; 16], View, OneHistory, 16>;

/// A seat at the cell, with its view.
pub type Seat = seq_cell::Pass<[u64; 16], View>;
