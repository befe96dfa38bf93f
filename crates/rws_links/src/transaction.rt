//! What a reply to the pending command means for the session's transaction, and what the transaction means for a command.
ghost use Rattle.std.specs.Prelude.{◌≡◌};
ghost use Rattle.rws_trx.specs.OnLinks.{added};
ghost use Rattle.rws_record.specs.Rules.{again_by, not_replayable};
ghost use Rattle.rws_commands.specs.Commands.{is_session};
ghost use Rattle.rws_record.specs.Values.{answer_to, answered_by, class_by_pending, ends_by, is_end, length_by, prepares, shown_by, speaks};

use rws_class::Class;
use rws_commands::{ClassedCommand, is_prepared};
use rws_reply::Outcome;
use rws_routing::Routing;
use rws_trx::{Answer, Course, Open, Transaction, TrxState};
use rws_wire::CloseReason;

/// The class of the pending command.
pub fn class_by_pending(pending: &Option<ClassedCommand>) -> Class
    ensures { result ≡ class_by_pending pending.now }
{
    match pending {
        Some(command) => command.class(),
        None => Class::Other,
    }
}

/// The pending command sets the session alone.
pub fn sets_session(pending: &Option<ClassedCommand>) -> bool
    ensures { result ≡ is_session (class_by_pending pending.now) }
{
    match pending {
        Some(command) => command.is_session(),
        None => false,
    }
}

/// How long the pending command is, in bytes.
fn pending_bytes(pending: &Option<ClassedCommand>) -> u64
    ensures { result ≡ length_by pending.now }
{
    match pending {
        Some(command) => command.bytes(),
        None => 0,
    }
}

/// The pending command may be sent again where its link is lost, and the transaction stands so.
pub fn sends_again(pending: &Option<ClassedCommand>, state: TrxState) -> bool
    ensures { result ≡ again_by pending.now state }
{
    match pending {
        Some(command) => state.sends_again(command.class()),
        None => true,
    }
}

/// The transaction behind the end of the pending command's reply on a link: it moves where the reply speaks of it.
pub fn answered_by(
    kept_on: Option<u64>,
    pending: &Option<ClassedCommand>,
    link: u64,
    outcome: Outcome,
    routing: Routing,
    transaction: Transaction,
) -> Transaction
    ensures { result ≡ answered_by kept_on pending.now link outcome routing transaction }
{
    let answer = answer_to(pending, link, outcome, transaction.state);
    let pinned = kept_on.or(transaction.link);
    if speaks(pinned, link, answer.class, routing) {
        return transaction.answered(answer);
    }
    transaction
}

/// The end of the pending command's reply on a link ends the transaction that is open.
pub fn ends_by(
    kept_on: Option<u64>,
    pending: &Option<ClassedCommand>,
    link: u64,
    outcome: Outcome,
    routing: Routing,
    transaction: Transaction,
) -> bool
    ensures { result ≡ ends_by kept_on pending.now link outcome routing transaction }
{
    let answer = answer_to(pending, link, outcome, transaction.state);
    let pinned = kept_on.or(transaction.link);
    speaks(pinned, link, answer.class, routing)
        && transaction.state.is_open()
        && is_end(transaction.state.course(answer.class, answer.outcome))
}

/// A transaction ends with a reply that means this for it.
fn is_end(course: Course) -> bool
    ensures { result ≡ is_end course }
{
    match course {
        Course::GoesOn => false,
        Course::Begins | Course::IsNone => true,
    }
}

/// The reply to the pending command came on a link, and ended so, where the transaction stood so.
fn answer_to(
    pending: &Option<ClassedCommand>,
    link: u64,
    outcome: Outcome,
    state: TrxState,
) -> Answer
    ensures { result ≡ answer_to pending.now link outcome state }
{
    Answer {
        link,
        class: class_by_pending(pending),
        bytes: pending_bytes(pending),
        outcome: shown_by(prepares(pending), outcome, state),
    }
}

/// What a reply shows of the transaction: that of a prepare without an error shows nothing, as if all were as before.
fn shown_by(prepares: bool, outcome: Outcome, state: TrxState) -> Outcome
    ensures { result ≡ shown_by prepares outcome state }
{
    match outcome {
        Outcome::Done { .. } if prepares => Outcome::Done {
            status: state.status(),
        },
        _ => outcome,
    }
}

/// The pending command prepares a statement.
pub fn prepares(pending: &Option<ClassedCommand>) -> bool
    ensures { result ≡ prepares pending.now }
{
    match pending {
        Some(command) => is_prepared(command.command().kind),
        None => false,
    }
}

/// A reply to a command of this class, on this link, speaks of the session's state.
fn speaks(pinned: Option<u64>, link: u64, class: Class, routing: Routing) -> bool
    ensures { result ≡ speaks pinned link class routing }
{
    let there = match pinned {
        Some(other) => other == link,
        None => routing.goes_to_primary(),
    };
    there || class == Class::BeginReadOnly
}

/// Why the session ends with its open transaction while this command is pending: no transaction is replayed.
pub fn not_replayable(pending: &Option<ClassedCommand>, transaction: Transaction) -> CloseReason
    ensures { result ≡ not_replayable (added transaction.bytes (length_by pending.now)) transaction.state }
{
    let state = transaction.state;
    CloseReason::NotReplayable {
        bytes: transaction.bytes.saturating_add(pending_bytes(pending)),
        tainted: state.tainted,
        read_only: state.opened == Open::ReadOnly,
        off: true,
    }
}
