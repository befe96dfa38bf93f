//! What a worker is asked for.

use rws_board::Action;
use rws_pool::PoolCall;
use rws_wire::Text;

/// What a worker does next.
#[derive(Debug, Drop, PartialEq, Eq)]
pub enum Step {
    /// Nothing, until it is given the next event.
    Idle,
    /// This is to be done outside.
    Act(Action),
    /// The words of the pool are to take this step, and then it is told outside. Behind a Route the worker is to answer the session
    /// that asks, before the next step.
    Call(PoolCall),
    /// Memory was wanting to this session, and its client is to be sent the farewell. The next steps close the session and give its
    /// links up.
    Broken { session: u32, farewell: Text },
    /// The next link would have the number 2^64 - 1, which is given to none. Nothing more is to be asked of the worker.
    Spent,
}
