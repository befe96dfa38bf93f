//! What the loss of a link means for its session.
ghost use Rattle.std.specs.Prelude.{◌≡◌, Bool};
ghost use Rattle.rws_record.specs.Rules.{after_loss_by, drop_cause, is_loss, is_replayable, loss_by};
ghost use Rattle.rws_links.specs.Losses.{closing};

use rws_link::LinkCause;
use rws_wire::{CloseReason, DropCause};

/// Why the loss of a link closes the session, if it does: the client has a part of the pending reply from it (`told`), the
/// pending command was sent on it (`sent`) and may not be sent `again`, the session is kept on it (`kept`), or its transaction is
/// open on it (`opened`), which `ends` says the reason of.
pub fn closing(
    told: bool,
    sent: bool,
    again: bool,
    kept: bool,
    opened: bool,
    ends: CloseReason,
) -> Option<CloseReason>
    ensures { (assigned : Bool) → after_loss_by (loss_by told sent again kept opened is_replayable assigned) ends ≡ closing result }
{
    if told {
        return Some(CloseReason::ResultCut);
    }
    if sent && !again {
        return Some(CloseReason::OutcomeUnknown);
    }
    if kept {
        return Some(CloseReason::SessionState);
    }
    if opened {
        return Some(ends);
    }
    None
}

/// To give a link up is to lose it, but for those that aren't needed any more.
pub fn is_loss(cause: DropCause) -> bool
    ensures { result ≡ is_loss cause }
{
    !matches!(cause, DropCause::End | DropCause::Kept | DropCause::Replay)
}

/// Why a link that is lost is given up.
pub fn drop_cause(cause: LinkCause) -> DropCause
    ensures { result ≡ drop_cause cause }
{
    match cause {
        LinkCause::BadWire => DropCause::BadWire,
        LinkCause::BadReply => DropCause::BadReply,
        LinkCause::Unasked => DropCause::Unasked,
        LinkCause::Greeting => DropCause::Greeting,
        LinkCause::Plugin => DropCause::Plugin,
        LinkCause::Login { code } => DropCause::Login { code },
    }
}
