//! What is found in a table: a link to a server, how many there are, and the first link on which something is due; and what a link
//! is to its session.
ghost use Rattle.std.specs.Prelude.{◌≡◌, count_by};
ghost use Rattle.rws_commands.specs.Statements.{is_behind};
ghost use Rattle.rws_record.specs.Rules.{is_link};
ghost use Rattle.rws_routing.specs.Routings.{server_in};
ghost use Rattle.rws_links.specs.Finding.{due_on, first_due, first_to, leads_to, owes_to};

use crate::NumberedLink;
use rws_route::Target;

/// What a link waits for that is free.
#[derive(Clone, Copy, Debug, PartialEq, Eq)]
pub enum DueKind {
    /// That by which it is prepared.
    Preamble,
    /// An entry of the session's history, which it is to play.
    Entry,
    /// A command of the client.
    Command,
}

/// What may be sent now.
#[derive(Clone, Copy, Debug, PartialEq, Eq)]
pub struct Due {
    /// The link on which it may go.
    pub link: u64,
    /// What it is.
    pub what: DueKind,
    /// The link has played the history's entries below this serial: the next one there is the first from it on.
    pub entry: u64,
}

/// How many links there are to a server.
#[derive(Clone, Copy, Debug, PartialEq, Eq)]
pub struct Count {
    /// Those on which a reply is awaited.
    pub pending: u64,
    /// All of them.
    pub links: u64,
}

/// The first link to a server, by its number.
pub(crate) fn first_to(links: &[NumberedLink], server: u8) -> Option<u64>
    ensures { result ≡ first_to server links.now }
{
    match links {
        [] => None,
        [first, others @ ..] => {
            if first.server == server {
                return Some(first.number);
            }
            first_to(others, server)
        }
    }
}

/// The links to a server.
pub(crate) fn load_of(links: &[NumberedLink], server: u8) -> Count
    ensures links { result.links ≡ count_by (leads_to server) links.now }
    ensures pending { result.pending ≡ count_by (owes_to server) links.now }
{
    Count {
        pending: links.iter().filter(|link| owes_to(link, server)).count() as u64,
        links: links.iter().filter(|link| link.server == server).count() as u64,
    }
}

/// A link leads to a server, and a reply is awaited on it.
fn owes_to(link: &NumberedLink, server: u8) -> bool
    ensures { result ≡ owes_to server link.now }
{
    link.server == server && link.link.is_awaiting()
}

/// The first link on which something is due, and what: `goes` is the link that a command waits for, and `last` the serial of the
/// last entry of the session's history.
pub(crate) fn first_due(links: &[NumberedLink], goes: Option<u64>, last: Option<u64>) -> Option<Due>
    ensures { result ≡ first_due goes last links.now }
{
    match links {
        [] => None,
        [first, others @ ..] => match due_on(first, goes, last) {
            Some(what) => Some(Due {
                link: first.number,
                what,
                entry: first.cursor,
            }),
            None => first_due(others, goes, last),
        },
    }
}

/// What is due on a link: the preamble as soon as it is logged in, then one entry after the other that it hasn't played, and then
/// a command that waits for it.
fn due_on(link: &NumberedLink, goes: Option<u64>, last: Option<u64>) -> Option<DueKind>
    ensures { result ≡ due_on goes last link.now }
{
    if !link.link.is_ready() {
        return None;
    }
    if !link.is_up {
        return Some(DueKind::Preamble);
    }
    if is_behind(last, link.cursor) {
        return Some(DueKind::Entry);
    }
    if goes == Some(link.number) {
        return Some(DueKind::Command);
    }
    None
}

/// One that has played the entries below this serial hasn't played the last one.
fn is_behind(last: Option<u64>, cursor: u64) -> bool
    ensures { result ≡ is_behind last cursor }
{
    match last {
        Some(last) => !(last < cursor),
        None => false,
    }
}

/// It is this link that is kept there.
pub fn is_link(link: u64, kept: Option<u64>) -> bool
    ensures { result ≡ is_link link kept }
{
    match kept {
        Some(other) => other == link,
        None => false,
    }
}

/// The server that was found for a command; 0 where there is none.
pub fn server_in(found: Target) -> u8
    ensures { result ≡ server_in found }
{
    match found {
        Target::Primary(server) | Target::Replica(server) => server,
        Target::NoPrimary => 0,
    }
}
