//! Sessions from their first command to their end, with ample memory.
//!
//! A session is played through a reference: what is alive at a `?` is dropped there, and each drop of a session is a case to prove.

ghost use Rattle.std.specs.Prelude.{IfOk};
ghost use Rattle.rws_config.specs.Allowed.{IsAllowed};

use super::*;
use rws_board::Action;
use rws_config::{COMMAND_BYTES, Config, FLOOD_ROOM, built_in};
use rws_pool::{PoolWords, Round, Seen, State};
use rws_record::Output;
use rws_select::{Load, Selector};
use rws_wire::Text;
use std::alloc::{AllocError, Global};
use std::test::Fail;

/// Where an input comes from.
#[derive(Clone, Copy)]
enum From {
    Client,
    Link(u64),
    /// A link counts as ready.
    Ready(u64),
}

/// An input with its bytes, and what the client and the links get for it.
type Turn = (From, &'static [u8], &'static [u8], &'static [u8]);

/// What a session is told for it.
fn input_of(alloc: Global, from: From, piece: &[u8]) -> Result<SessionInput, AllocError> {
    match from {
        From::Client => Ok(SessionInput::Client(Text::from_slice(alloc, piece)?)),
        From::Link(link) => Ok(SessionInput::Link {
            link,
            bytes: Text::from_slice(alloc, piece)?,
        }),
        From::Ready(link) => Ok(SessionInput::Ready { link }),
    }
}

/// What a session gave out in a turn, and what its worker answers by.
#[derive(Drop)]
struct Given {
    words: PoolWords,
    /// The number that the next link has.
    next: u64,
    /// How many outputs there were.
    count: u8,
    /// The bytes for the client.
    told: Vec<u8>,
    /// The bytes for its link.
    sent: Vec<u8>,
}

impl Given {
    fn new(alloc: Global, next: u64) -> Given {
        let mut words = PoolWords::new(0);
        words.observe(&SEEN);
        Given {
            words,
            next,
            count: 0,
            told: Vec::new(alloc),
            sent: Vec::new(alloc),
        }
    }

    /// Fetches all that a session gave out.
    fn fetch(&mut self, session: &mut Session) -> Result<(), AllocError> {
        self.told.clear();
        self.sent.clear();
        for count in 0..u8::MAX {
            let Some(output) = session.next_out() else {
                self.count = count;
                return Ok(());
            };
            self.add(output)?;
        }
        Err(AllocError)
    }

    fn add(&mut self, output: Output) -> Result<(), AllocError> {
        match output {
            Output::Act(Action::ToClient { session: _, bytes }) => {
                self.told.extend_from_slice(bytes.as_slice())
            }
            Output::Act(Action::ToLink { link: _, bytes }) => {
                self.sent.extend_from_slice(bytes.as_slice())
            }
            _ => Ok(()),
        }
    }
}

/// Session 7 begins, with this link to server 0.
fn begin(alloc: Global, link: u64, config: &Config) -> Result<Session, AllocError>
    requires { IsAllowed config.now }
{
    Session::begin(alloc, 7, 0, link, 0, config)
}

/// Server 0 is the primary, and server 1 a replica.
const SEEN: Round = Round {
    seen: [
        Some(Seen {
            state: State::Master,
            position: 0,
        }),
        Some(Seen {
            state: State::Slave,
            position: 0,
        }),
        None,
        None,
        None,
        None,
        None,
    ],
};

/// A session that asks is answered, and goes on.
fn answer(session: &mut Session, config: &Config, given: &Given) -> Result<bool, AllocError> {
    let selector = Selector::new(|load: &Load| u64::from(load.pending) * 65536
        + u64::from(load.links));
    let loads = [Load {
        pending: 0,
        links: 0,
    }; 7];
    session.answer(&given.words, &loads, given.next, config, &selector)?;
    session.start(config)
}

/// A session that asks is answered: whether it asks again.
fn settle(
    session: &mut Session,
    asks: bool,
    config: &Config,
    given: &Given,
) -> Result<bool, AllocError> {
    if !asks {
        return Ok(false);
    }
    answer(session, config, given)
}

/// An input is told to a session, which is answered if it asks: whether it asks again.
fn tell(
    session: &mut Session,
    input: SessionInput,
    config: &Config,
    given: &mut Given,
) -> Result<bool, AllocError> {
    let asks = session.turn(input, config)?;
    let again = settle(session, asks, config, given)?;
    given.fetch(session)?;
    Ok(again)
}

/// Plays turns: how many went as they are to, up to the first that didn't.
fn play(
    alloc: Global,
    session: &mut Session,
    turns: &[Turn],
    config: &Config,
    given: &mut Given,
) -> Result<usize, AllocError> {
    for at in 0..turns.len() {
        let (from, piece, told, sent) = turns[at];
        let asks = tell(session, input_of(alloc, from, piece)?, config, given)?;
        if asks || given.told.as_slice() != told || given.sent.as_slice() != sent {
            return Ok(at);
        }
    }
    Ok(turns.len())
}

/// A result of one row, in packets from number 1 on: the number of columns, a definition, an EOF, the row, an EOF.
const RESULT: &[u8] =
    b"\x01\0\0\x01\x01\x17\0\0\x02\x03def\0\0\0\x01v\0\x0c\x2d\0\x0a\0\0\0\xfd\0\0\0\0\0\x05\0\0\x03\xfe\0\0\x02\0\x02\0\0\x04\x01\x31\x05\0\0\x05\xfe\0\0\x02\0";

/// The proxy's own OK as packet 1.
const PONG: &[u8] = b"\x07\0\0\x01\0\0\0\x02\0\0\0";

/// An OK that names the GTID 0-1-7, and what the client gets for it.
const TRACKED: &[u8] = b"\x1b\0\0\x01\0\x01\0\x02\x40\0\0\0\x12\0\x10\x09last_gtid\x050-1-7";

const UNTRACKED: &[u8] = b"\x07\0\0\x01\0\x01\0\x02\0\0\0";

/// IsOwn, queries, a reply with session state, one in parts, and a quit behind a query.
const TURNS: [Turn; 7] = [
    (From::Client, b"\x01\0\0\0\x0e\x02\0\0\0\x03", PONG, b""),
    (From::Client, b"w", b"", b"\x02\0\0\0\x03w"),
    (From::Link(1), TRACKED, UNTRACKED, b""),
    (
        From::Client,
        b"\x02\0\0\0\x03x\x01\0\0\0\x0e",
        b"",
        b"\x02\0\0\0\x03x",
    ),
    (From::Link(1), b"\x01\0\0\x01", b"", b""),
    (From::Link(1), b"\x01", b"\x01\0\0\x01\x01", b""),
    (From::Client, b"\x01\0\0\0\x01", b"", b""),
];

/// The rest of the result.
fn end(
    alloc: Global,
    session: &mut Session,
    config: &Config,
    given: &mut Given,
) -> Result<bool, AllocError> {
    let input = input_of(alloc, From::Link(1), &RESULT[5..])?;
    tell(session, input, config, given)
}

#[test]
fn session(rt: HostRuntime) -> Result<(), Fail> {
    let config = built_in(rt.alloc())?;
    let mut session = begin(rt.alloc(), 1, &config)?;
    let mut given = Given::new(rt.alloc(), 1);
    let went = play(rt.alloc(), &mut session, &TURNS, &config, &mut given);
    assert_eq!(rt; went.ok(), Some(TURNS.len()));
    // No turn opens a link, so the first was there all the time.
    assert!(rt; session.has_link(1) && session.awaits(1) && !session.awaits(2));
    let asks = end(rt.alloc(), &mut session, &config, &mut given);
    assert_eq!(rt; asks.ok(), Some(false));
    // the result's last four payloads, the ping's OK, the close, and the drop of the link
    assert_eq!(rt; given.count, 7);
    assert!(rt; session.is_over() && !session.has_link(1));
    Ok(())
}

/// A command, and what the client gets for too many bytes behind it.
const COMMAND: &[u8] = b"\x02\0\0\0\x03x";

const TOO_LARGE: &[u8] = b"\x1a\0\0\x01\xff\x81\x04#08S01command too large";

const ASKED: [Turn; 1] = [(From::Client, COMMAND, b"", COMMAND)];

const FLOODED: [Turn; 1] = [(From::Client, b"\0", TOO_LARGE, b"")];

/// The settings by which a client may send the least ahead.
fn narrow(alloc: Global) -> Result<Config, AllocError>
    ensures { IfOk result IsAllowed }
{
    let mut config = built_in(alloc)?;
    config.command_bytes = COMMAND_BYTES.least;
    Ok(config)
}

/// So many bytes come behind a command.
fn fill(
    alloc: Global,
    session: &mut Session,
    most: usize,
    config: &Config,
    given: &mut Given,
) -> Result<bool, AllocError> {
    let behind = vec![in alloc; 0; most]?;
    tell(
        session,
        SessionInput::Client(Text::new(behind)),
        config,
        given,
    )
}

#[test]
fn floods(rt: HostRuntime) -> Result<(), Fail> {
    let config = narrow(rt.alloc())?;
    let mut session = begin(rt.alloc(), 1, &config)?;
    let mut given = Given::new(rt.alloc(), 1);
    let most = COMMAND_BYTES.least + FLOOD_ROOM;
    let went = play(rt.alloc(), &mut session, &ASKED, &config, &mut given);
    assert_eq!(rt; went.ok(), Some(1));
    let asks = fill(rt.alloc(), &mut session, most as usize, &config, &mut given);
    assert_eq!(rt; asks.ok(), Some(false));
    assert!(rt; session.unanswered() == most && session.awaits(1));
    let went = play(rt.alloc(), &mut session, &FLOODED, &config, &mut given);
    assert_eq!(rt; went.ok(), Some(1));
    // 1153, the close, and the drop of the link
    assert_eq!(rt; given.count, 3);
    assert!(rt; session.is_over() && !session.awaits(1));
    Ok(())
}

#[test]
fn a_farewell_is_reserved(rt: HostRuntime) -> Result<(), Fail> {
    let config = built_in(rt.alloc())?;
    let mut session = begin(rt.alloc(), 3, &config)?;
    let told = session.farewell();
    assert_eq!(rt;
        told.as_slice(),
        b"\x16\0\0\x01\xff\x0d\x04#HY001out of memory".as_slice()
    );
    assert_eq!(rt; session.next_link(), Some(3));
    assert_eq!(rt; session.next_link(), None);
    Ok(())
}

/// A read.
const READ: &[u8] = b"\x09\0\0\0\x03SELECT 1";

/// COM_INIT_DB for `d`.
const INIT_DB: &[u8] = b"\x02\0\0\0\x02d";

/// A command sets the session at the primary, and the link to the replica plays it before a read goes there.
const PLAYED: [Turn; 6] = [
    (From::Client, INIT_DB, b"", INIT_DB),
    (From::Link(1), PONG, PONG, b""),
    (From::Client, READ, b"", b""),
    (From::Ready(2), b"", b"", INIT_DB),
    (From::Link(2), PONG, b"", READ),
    (From::Link(2), PONG, PONG, b""),
];

#[test]
fn a_session_is_played_on_another_link(rt: HostRuntime) -> Result<(), Fail> {
    let config = built_in(rt.alloc())?;
    let mut session = begin(rt.alloc(), 1, &config)?;
    let mut given = Given::new(rt.alloc(), 2);
    let went = play(rt.alloc(), &mut session, &PLAYED, &config, &mut given);
    assert_eq!(rt; went.ok(), Some(PLAYED.len()));
    Ok(())
}

/// COM_STMT_PREPARE of `SELECT ?`, COM_STMT_EXECUTE of the session's statement 1 with a NULL, and COM_STMT_CLOSE of it.
const PREPARE: &[u8] = b"\x09\0\0\0\x16SELECT ?";

const EXECUTE: &[u8] = b"\x0e\0\0\0\x17\x01\0\0\0\0\x01\0\0\0\x01\x01\x06\0";

const CLOSE: &[u8] = b"\x05\0\0\0\x19\x01\0\0\0";

/// The reply to the prepare at the primary, with the id 7, and at the replica, with the id 9, and what the client gets for the first.
const AT_PRIMARY: &[u8] =
    b"\x0c\0\0\x01\0\x07\0\0\0\0\0\x01\0\0\0\0\x17\0\0\x02\x03def\0\0\0\x01?\0\x0c?\0\0\0\0\0\x06\x80\0\0\0\0\x05\0\0\x03\xfe\0\0\x02\0";

const AT_REPLICA: &[u8] =
    b"\x0c\0\0\x01\0\x09\0\0\0\0\0\x01\0\0\0\0\x17\0\0\x02\x03def\0\0\0\x01?\0\x0c?\0\0\0\0\0\x06\x80\0\0\0\0\x05\0\0\x03\xfe\0\0\x02\0";

const PREPARED: &[u8] =
    b"\x0c\0\0\x01\0\x01\0\0\0\0\0\x01\0\0\0\0\x17\0\0\x02\x03def\0\0\0\x01?\0\x0c?\0\0\0\0\0\x06\x80\0\0\0\0\x05\0\0\x03\xfe\0\0\x02\0";

/// The execute under the replica's id, and what the replica is sent before a read once the statement is closed, with the read.
const EXECUTED: &[u8] = b"\x0e\0\0\0\x17\x09\0\0\0\0\x01\0\0\0\x01\x01\x06\0";

const CLOSED: &[u8] = b"\x05\0\0\0\x19\x09\0\0\0\x09\0\0\0\x03SELECT 1";

/// A statement is prepared at the primary, executed at the replica under its id there, and closed; the replica is told before its next
/// command.
const RUN: [Turn; 8] = [
    (From::Client, PREPARE, b"", PREPARE),
    (From::Link(1), AT_PRIMARY, PREPARED, b""),
    (From::Client, EXECUTE, b"", b""),
    (From::Ready(2), b"", b"", PREPARE),
    (From::Link(2), AT_REPLICA, b"", EXECUTED),
    (From::Link(2), PONG, PONG, b""),
    (From::Client, CLOSE, b"", b""),
    (From::Client, READ, b"", CLOSED),
];

#[test]
fn a_statement_is_run_on_another_link(rt: HostRuntime) -> Result<(), Fail> {
    let config = built_in(rt.alloc())?;
    let mut session = begin(rt.alloc(), 1, &config)?;
    let mut given = Given::new(rt.alloc(), 2);
    let went = play(rt.alloc(), &mut session, &RUN, &config, &mut given);
    assert_eq!(rt; went.ok(), Some(RUN.len()));
    Ok(())
}
