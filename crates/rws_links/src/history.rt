//! A session's history: what a reply means for it, and which link led an entry.
ghost use Rattle.std.specs.Prelude.{◌≡◌, OnOk, map, if◌then◌else◌};
ghost use Rattle.rws_record.specs.Item.Recording.{Accepts, Keeps};
ghost use Rattle.rws_record.specs.Rules.{recording_by};
ghost use Rattle.rws_links.specs.History.{recorded};
ghost use Rattle.rws_links.specs.Links.{number_of};
ghost use Rattle.rws_links.specs.Table.{led};

use crate::NumberedLink;
use rws_reply::Outcome;
use std::alloc::AllocError;

/// What the end of a reply means for the session's history.
#[derive(Clone, Copy, Debug, PartialEq, Eq)]
pub enum Recording {
    Nothing,
    /// Its command is added.
    Accepts,
    /// There is no room for it, so the session is kept on the link.
    Keeps,
}

impl Recording {
    /// A command that `sets` the session, without an error, is added to the history, unless the session is `kept` on a link; where
    /// the history is `full`, the session is kept from then on.
    pub fn of(sets: bool, kept: bool, full: bool, outcome: Outcome) -> Recording
        ensures { result ≡ recorded (recording_by sets kept full outcome) }
    {
        if !sets || kept {
            return Recording::Nothing;
        }
        match outcome {
            Outcome::Done { .. } => Recording::by_room(full),
            Outcome::Failed { .. } => Recording::Nothing,
        }
    }

    /// What is to be recorded is added where there is room.
    fn by_room(full: bool) -> Recording
        ensures { result ≡ (if full then recorded Keeps else recorded Accepts) }
    {
        if full {
            Recording::Keeps
        } else {
            Recording::Accepts
        }
    }
}

/// The link of this number led the entry of this serial.
pub(crate) fn lead(links: &mut [NumberedLink], number: u64, serial: u64) -> Result<(), AllocError>
    ensures ok { OnOk result (links.new ≡ map (led number serial) links.old) }
    ensures numbers { map number_of links.new ≡ map number_of links.old }
{
    match links.split_first_mut() {
        None => Ok(()),
        Some((first, others)) => {
            first.lead(number, serial)?;
            lead(others, number, serial)
        }
    }
}
