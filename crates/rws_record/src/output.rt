//! What a session gives out.

use rws_board::Action;
use rws_gtid::Gtid;

/// One thing that a session gives out.
#[derive(Debug, Drop, PartialEq, Eq)]
pub enum Output {
    /// This is to be done outside.
    Act(Action),
    /// The words of the pool are to take this commit, which the server at this index made, before what stands behind it is done.
    Record { server: u8, gtid: Gtid },
}
