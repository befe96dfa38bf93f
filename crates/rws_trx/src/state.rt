//! The state of a session's transaction and its steps.
ghost use Rattle.std.specs.Prelude.{◌≡◌, ℕ, not};
ghost use Rattle.rws_class.specs.declared.class.Class.{Class as StatementClass};
ghost use Rattle.rws_reply.specs.declared.kind.Outcome.TheVariants.{Done, Failed};
ghost use Rattle.rws_trx.specs.Transactions.{at_start, after, course, goes_on, is_open, is_read_only, may_end, leaves_unknown};
ghost use Rattle.rws_trx.specs.OnLinks.{status_of};

use rws_class::Class;
use rws_msgs::status::{AUTOCOMMIT, IN_TRANS};
use rws_reply::Outcome;

/// Which transaction is open.
#[derive(Clone, Copy, Debug, PartialEq, Eq)]
pub enum Open {
    /// None.
    Nothing,
    /// One that may write.
    ReadWrite,
    /// One that a `START TRANSACTION READ ONLY` opened while autocommit was on and none was open.
    ReadOnly,
}

/// What a reply means for the transaction.
#[derive(Clone, Copy, Debug, PartialEq, Eq)]
pub enum Course {
    /// The one that was open is open still, and the command belongs to it.
    GoesOn,
    /// One is open that begins with the command.
    Begins,
    /// None is open.
    IsNone,
}

/// What is known of a session's transaction.
///
/// The caller takes a step for each whole reply that went to the client and speaks of the transaction. The reply to a
/// COM_STMT_PREPARE that has no error speaks of none.
#[derive(Clone, Copy, Debug, PartialEq, Eq)]
pub struct TrxState {
    /// Whether a statement outside of a transaction is committed by itself.
    pub autocommit: bool,
    /// The open transaction.
    pub opened: Open,
    /// A command in the open transaction was answered by an error: the server may have rolled back what came before.
    pub tainted: bool,
}

impl TrxState {
    /// The state at a session's start: autocommit is on and no transaction is open.
    pub fn new() -> TrxState
        ensures { result ≡ at_start }
    {
        TrxState {
            autocommit: true,
            opened: Open::Nothing,
            tainted: false,
        }
    }

    /// A command of this class was answered without an error; `status` is that of the reply's last OK or EOF.
    pub fn after_done(&mut self, class: Class, status: u16)
        ensures { self.new ≡ after class (Done status) self.old }
    {
        let is_open = status & IN_TRANS != 0;
        let goes_on = self.goes_on(class, status);
        let opened = if goes_on {
            self.opened
        } else if !is_open {
            Open::Nothing
        } else if self.is_read_only(class) {
            Open::ReadOnly
        } else {
            Open::ReadWrite
        };
        *self = TrxState {
            autocommit: status & AUTOCOMMIT != 0,
            opened,
            tainted: goes_on && self.tainted,
        };
    }

    /// A command was answered by an error: an open transaction is tainted, and nothing else changes.
    pub fn after_error(&mut self)
        ensures { (class : StatementClass) (code : ℕ) → self.new ≡ after class (Failed code) self.old }
    {
        self.tainted |= self.opened != Open::Nothing;
    }

    /// The state behind a reply to a command of this class that ended so.
    pub fn after(self, class: Class, outcome: Outcome) -> TrxState
        ensures { result ≡ after class outcome self }
    {
        let mut state = self;
        match outcome {
            Outcome::Done { status } => state.after_done(class, status),
            Outcome::Failed { code: _ } => state.after_error(),
        }
        state
    }

    /// What a reply to a command of this class that ended so means for the transaction.
    pub fn course(&self, class: Class, outcome: Outcome) -> Course
        ensures { result ≡ course class outcome self.now }
    {
        match outcome {
            Outcome::Done { status } => {
                if self.goes_on(class, status) {
                    Course::GoesOn
                } else if status & IN_TRANS != 0 {
                    Course::Begins
                } else {
                    Course::IsNone
                }
            }
            Outcome::Failed { code: _ } => {
                if self.is_open() {
                    Course::GoesOn
                } else {
                    Course::IsNone
                }
            }
        }
    }

    /// A transaction is open.
    pub fn is_open(&self) -> bool
        ensures { result ≡ is_open self.now }
    {
        self.opened != Open::Nothing
    }

    /// The status bits of an OK that show this state.
    pub fn status(&self) -> u16
        ensures { result ≡ status_of self.now }
    {
        let opened = if self.is_open() { IN_TRANS } else { 0 };
        let autocommit = if self.autocommit { AUTOCOMMIT } else { 0 };
        opened + autocommit
    }

    /// Whether the transaction that is open goes on behind a reply without an error: a transaction is open still, and no
    /// command that begins one was answered.
    pub fn goes_on(&self, class: Class, status: u16) -> bool
        ensures { result ≡ goes_on class status self.now }
    {
        let begins = matches!(class, Class::Begin | Class::BeginReadOnly);
        self.opened != Open::Nothing && status & IN_TRANS != 0 && !begins
    }

    /// Whether a command of this class may end the open transaction. Where none is open, no command may.
    pub fn may_end(&self, class: Class) -> bool
        ensures { result ≡ may_end class self.now }
    {
        let ends = matches!(
            class,
            Class::Begin
                | Class::BeginReadOnly
                | Class::Commit
                | Class::Rollback
                | Class::AutocommitOn
                | Class::Ddl
                | Class::Other
        );
        self.opened != Open::Nothing && ends
    }

    /// Whether a command of this class may be sent again when its link was lost before its reply was whole: whatever the
    /// server had done with it, nothing of that stays.
    pub fn sends_again(&self, class: Class) -> bool
        ensures { result ≡ not (leaves_unknown class self.now) }
    {
        let commits_alone = match class {
            Class::Write => self.autocommit,
            Class::Ddl => true,
            _ => false,
        };
        let outside = self.opened == Open::Nothing;
        !(class == Class::Other || self.may_end(class) || (outside && commits_alone))
    }

    /// Whether a transaction that a command of this class opens now is read-only.
    fn is_read_only(&self, class: Class) -> bool
        ensures { result ≡ is_read_only class self.now }
    {
        class == Class::BeginReadOnly && self.autocommit && self.opened == Open::Nothing
    }
}
