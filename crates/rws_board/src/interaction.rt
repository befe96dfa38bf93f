//! What a board did.

use crate::{Action, Event};
use rws_pool::PoolCall;

/// One thing that a board did.
#[derive(Debug, Drop, PartialEq, Eq)]
pub enum Interaction {
    /// It gave this event.
    Gave(Event),
    /// It took this action.
    Took(Action),
    /// It was told of this step of the pool.
    Told(PoolCall),
}
