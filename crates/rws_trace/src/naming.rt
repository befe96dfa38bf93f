//! The words of an `observe` line, read: the servers that they name, by rising indexes, and what is seen of each.
ghost use Rattle.std.specs.Prelude.{◌≡◌, ◌-◌, ◌≤◌, Some, IfSome, slice_set};
ghost use Rattle.rws_trace.specs.EventLine.{named_from, name_one, none_named, round_of, seen_of, state_of, words_of};

use crate::bytes::{cut_in_two, split_at};
use crate::number::{read_server, read_u64};
use rws_pool::{Round, Seen, State};

/// What the words of an `observe` line name up to here.
#[derive(Clone, Copy)]
pub struct Naming {
    /// The least index that may come next.
    pub least: u8,
    /// What is seen, by index.
    pub seen: [Option<Seen>; 7],
}

/// The round in which these words, parted by a space each, name some of so many servers.
pub(crate) fn read_round(servers: u8, words: &[u8]) -> Option<Round>
    ensures { result ≡ round_of servers (words_of words.now) }
{
    let mut naming = Naming::none();
    let mut rest = words;
    'words: loop {
        match split_at(b' ', rest) {
            Some((word, behind)) => {
                naming = naming.with_word(servers, word)?;
                rest = behind;
            }
            None => {
                let all = naming.with_word(servers, rest)?;
                let seen = all.seen;
                return Some(Round { seen });
            }
        }
    }
}

impl Naming {
    // No server is named.
    fn none() -> Naming
        ensures { result ≡ none_named }
    {
        Naming {
            least: 0,
            seen: [None; 7],
        }
    }

    // One word more.
    fn with_word(self, servers: u8, word: &[u8]) -> Option<Naming>
        ensures { result ≡ name_one servers self word.now }
    {
        let (server, named) = read_word(self.least, servers, word)?;
        Some(Naming {
            least: server + 1,
            seen: with_seen(self.seen, server, named),
        })
    }
}

// What is seen, with that of one server more.
fn with_seen(all: [Option<Seen>; 7], server: u8, named: Seen) -> [Option<Seen>; 7]
    ensures { result ≡ slice_set all server (Some named) }
{
    let mut seen = all;
    let index = usize::from(server);
    if index >= seen.len() {
        return seen;
    }
    seen[index] = Some(named);
    seen
}

// The server that a word names, and what is seen of it.
fn read_word(least: u8, servers: u8, word: &[u8]) -> Option<(u8, Seen)>
    ensures value { result ≡ named_from least servers word.now }
    ensures within { IfSome result (λ named. named.0 ≤ servers - 1) }
{
    let (server, seen) = cut_in_two(b'=', word)?;
    let server = read_server(least, servers, server)?;
    let seen = read_seen(seen)?;
    Some((server, seen))
}

// A state and a position.
fn read_seen(text: &[u8]) -> Option<Seen>
    ensures { result ≡ seen_of text.now }
{
    let (state, position) = cut_in_two(b':', text)?;
    let state = read_state(state)?;
    let position = read_u64(position)?;
    Some(Seen { state, position })
}

fn read_state(word: &[u8]) -> Option<State>
    ensures { result ≡ state_of word.now }
{
    if word == b"down".as_slice() {
        return Some(State::Down);
    }
    if word == b"running".as_slice() {
        return Some(State::Running);
    }
    if word == b"slave".as_slice() {
        return Some(State::Slave);
    }
    if word == b"master".as_slice() {
        return Some(State::Master);
    }
    if word == b"maintenance".as_slice() {
        return Some(State::Maintenance);
    }
    None
}
