//! A session's transaction, with the link that it is open on.
ghost use Rattle.std.specs.Prelude.{◌≡◌};
ghost use Rattle.rws_trx.specs.OnLinks.{answered, no_transaction};

use crate::{Course, TrxState};
use rws_class::Class;
use rws_reply::Outcome;

/// A whole reply that the client has, and that speaks of the transaction.
#[derive(Clone, Copy, Debug, PartialEq, Eq)]
pub struct Answer {
    /// The link that it came on.
    pub link: u64,
    /// The class of its command.
    pub class: Class,
    /// How long the command is, in bytes, its command byte included.
    pub bytes: u64,
    /// How the reply ended.
    pub outcome: Outcome,
}

/// What is known of a session's transaction, and where it is open.
#[derive(Clone, Copy, Debug, PartialEq, Eq)]
pub struct Transaction {
    /// What is known of it.
    pub state: TrxState,
    /// The link that it is open on.
    pub link: Option<u64>,
    /// How many bytes the commands have that were answered in it.
    pub bytes: u64,
}

impl Transaction {
    /// A session begins without one: autocommit is on.
    pub fn new() -> Transaction
        ensures { result ≡ no_transaction }
    {
        Transaction {
            state: TrxState::new(),
            link: None,
            bytes: 0,
        }
    }

    /// The transaction behind a reply that speaks of it.
    pub fn answered(self, answer: Answer) -> Transaction
        ensures { result ≡ answered answer self }
    {
        let state = self.state.after(answer.class, answer.outcome);
        match self.state.course(answer.class, answer.outcome) {
            Course::GoesOn => Transaction {
                state,
                link: self.link,
                bytes: self.bytes.saturating_add(answer.bytes),
            },
            Course::Begins => Transaction {
                state,
                link: Some(answer.link),
                bytes: answer.bytes,
            },
            Course::IsNone => Transaction {
                state,
                link: None,
                bytes: 0,
            },
        }
    }
}
