//! What the links say, one after the other.
ghost use Rattle.std.specs.Prelude.{◌≡◌, List, ℕ, IfOk, map};
ghost use Rattle.rws_record.specs.Item.{Item};
ghost use Rattle.rws_links.specs.Links.{link_of, number_of};
ghost use Rattle.rws_links.specs.Table.{AreDistinct, ReadsFirst, bans, is_different, is_entry, is_failed, statement_of};

use crate::numbered::is_whole;
use crate::{Asked, NumberedLink};
use rws_causal::Causal;
use rws_commands::{PreparedAs, is_otherwise};
use rws_link::LinkStep;
use rws_msgs::PrepareOk;
use rws_reply::{Outcome, Progress};
use rws_routing::with_server;
use std::alloc::{AllocError, Global};

/// What a link said.
#[derive(Drop)]
pub struct Coming {
    /// The number of the link that said it.
    pub link: u64,
    /// The server of the settings that the link leads to.
    pub server: u8,
    /// What it said, which isn't `Idle`.
    pub said: LinkStep,
    /// What was sent on it last, which a payload of a reply answers.
    pub asked: Option<Asked>,
    /// The statement that the reply told of so far, with what was said, if what was asked is a prepare.
    pub named: Option<PrepareOk>,
    /// What comes next of the pending read, if what was asked goes before it, and is answered to its end with what was said.
    pub checked: Option<Causal>,
}

impl Coming {
    /// A set of servers with that of the link, where it answered an entry of the history by an error, or prepared its statement
    /// with other counts: it isn't as the server that the entry was first sent to.
    pub fn bans(&self, before: u8) -> u8
        ensures { result ≡ bans self.now.said self.now.asked self.now.named self.now.server before }
    {
        if self.is_different() {
            return with_server(self.server, before);
        }
        before
    }

    /// It ends the reply to an entry, otherwise than that of the server which the entry was first sent to.
    fn is_different(&self) -> bool
        ensures { result ≡ is_different self.now.said self.now.asked self.now.named }
    {
        if is_failed(&self.said) && is_entry(self.asked) {
            return true;
        }
        is_whole(&self.said) && is_otherwise(statement_of(self.asked), self.named)
    }
}

/// What was asked is an entry of the history.
fn is_entry(asked: Option<Asked>) -> bool
    ensures { result ≡ is_entry asked }
{
    match asked {
        Some(Asked::Entry { .. }) => true,
        Some(Asked::Preamble | Asked::Command | Asked::Wait | Asked::Probe(_)) | None => false,
    }
}

/// How the statement was prepared first that an entry prepares.
fn statement_of(asked: Option<Asked>) -> Option<PreparedAs>
    ensures { result ≡ statement_of asked }
{
    match asked {
        Some(Asked::Entry { statement, .. }) => statement,
        Some(Asked::Preamble | Asked::Command | Asked::Wait | Asked::Probe(_)) | None => None,
    }
}

/// It is the end of a reply by an error.
fn is_failed(said: &LinkStep) -> bool
    ensures { result ≡ is_failed said.now }
{
    match said {
        LinkStep::Part {
            progress: Progress::Whole(Outcome::Failed { .. }),
            ..
        } => true,
        _ => false,
    }
}

/// Asks links in their order, up to the first that has something to say.
pub(crate) fn read_first(
    alloc: Global,
    links: &mut [NumberedLink],
) -> Result<Option<Coming>, AllocError>
    ensures ok { (past : List Item) (numbers : List ℕ) → links.old ≡ map (link_of past) numbers → AreDistinct numbers
        → IfOk result (λ found. ReadsFirst past numbers found links.new) }
    ensures numbers { map number_of links.new ≡ map number_of links.old }
{
    match links.split_first_mut() {
        None => Ok(None),
        Some((first, others)) => match first.link.next()? {
            LinkStep::Idle => read_first(alloc, others),
            said => Ok(Some(first.hear(alloc, said)?)),
        },
    }
}
