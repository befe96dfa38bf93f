//! The end of a reply.

use rws_msgs::PrepareOk;
use rws_reply::Outcome;

/// How the reply to a command of the client ended.
#[derive(Clone, Copy, Debug, PartialEq, Eq)]
pub struct Ending {
    /// Without an error, or by one.
    pub outcome: Outcome,
    /// The statement that it told of, if its command was a prepare.
    pub named: Option<PrepareOk>,
}
