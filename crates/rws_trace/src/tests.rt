//! What no contract says: that calls succeed with ample memory, and lines from outside.
use super::*;
use rws_board::{Action, Board, BoardFault, CallList, Event, MemSink, MemSource, ReadSource};
use rws_gtid::Gtid;
use rws_pool::{PoolCall, Round, Seen, State};
use rws_wire::{CloseReason, Text};
use std::alloc::Global;
use std::io::{self, Read};
use std::test::Fail;

const THREE: TraceSettings = TraceSettings {
    servers: 3,
    plain: true,
};

// How many events these lines say, and which of them is bad, or 0.
const TRACES: [(&[u8], u64, u64); 41] = [
    (b"", 0, 0),
    (b"\n\n# begin\nlost 1", 1, 0),
    (
        b"begin 2 0\nclient 2 0aFf\nlink 1 00\nlost 1\ngone 2\n",
        5,
        0,
    ),
    (b"begin 2 0\nbegin 4 1\nbegin 4 0\ngone 2\n", 2, 3),
    (b"begin 1 0\njump\n", 1, 2),
    (b"begin 0 0", 0, 1),
    (b"begin 01 0", 0, 1),
    (b"begin 1 3", 0, 1),
    (b"begin 1  0", 0, 1),
    (b"begin 1 0 ", 0, 1),
    (b"gone 4294967296", 0, 1),
    (b"gone +1", 0, 1),
    (b"lost 18446744073709551616", 0, 1),
    (b"client 1 0", 0, 1),
    (b"client 1 0g", 0, 1),
    (b"gone 1\r\n", 0, 1),
    (
        b"accept 1 0102030405060708090a0B0c0D0e0f101112fFfE\nready 18446744073709551615\nbegin 2 0\naccept 4294967295 0102030405060708090a0B0c0D0e0f101112fFfE\n",
        4,
        0,
    ),
    (
        b"begin 2 0\naccept 2 0102030405060708090a0B0c0D0e0f101112fFfE\n",
        1,
        2,
    ),
    (
        b"accept 2 0102030405060708090a0B0c0D0e0f101112fFfE\naccept 1 0102030405060708090a0B0c0D0e0f101112fFfE\n",
        1,
        2,
    ),
    (
        b"accept 2 0102030405060708090a0B0c0D0e0f101112fFfE\nbegin 2 0\n",
        1,
        2,
    ),
    (b"accept 0 0102030405060708090a0B0c0D0e0f101112fFfE", 0, 1),
    (b"accept 1 0102030405060708090a0B0c0D0e0f101112fF", 0, 1),
    (b"accept 1 0102030405060708090a0B0c0D0e0f101112fFf", 0, 1),
    (b"accept 1 0102030405060708090a0B0c0D0e0f101112fFfE1", 0, 1),
    (b"accept 1 0102030405060708090a0B0c0D0e0f101112fFfE11", 0, 1),
    (b"accept 1 0102030405060708090a0B0c0D0e0f101112fF00", 0, 1),
    (b"accept 1 1001030405060708090a0B0c0D0e0f101112fFfE", 1, 0),
    (b"accept 1 0102030405060708090a0B0c0D0e0f101112fF0g", 0, 1),
    (b"accept 1", 0, 1),
    (b"accept 1 0102030405060708090a0B0c0D0e0f101112fFfE 0", 0, 1),
    (b"ready 1\nready 0", 1, 2),
    (b"ready 01", 0, 1),
    (b"ready 18446744073709551616", 0, 1),
    (b"ready 1 00", 0, 1),
    (
        b"clock 0\nclock 18446744073709551615\nclock 18446744073709551615",
        3,
        0,
    ),
    (
        b"clock 7\naccept 1 0102030405060708090a0B0c0D0e0f101112fFfE\nclock 6",
        2,
        3,
    ),
    (b"clock 18446744073709551616", 0, 1),
    (b"clock 01", 0, 1),
    (b"clock", 0, 1),
    (b"clock ", 0, 1),
    (b"clock 1 0", 0, 1),
];

// The same for the lines of a monitor's rounds.
const ROUNDS: [(&[u8], u64, u64); 24] = [
    (
        b"observe 0=master:18446744073709551615 1=down:0 2=running:7\nobserve 1=slave:3\nobserve 2=maintenance:0",
        3,
        0,
    ),
    (b"observe", 0, 1),
    (b"observe ", 0, 1),
    (b" observe 0=down:0", 0, 1),
    (b"observe  0=down:0", 0, 1),
    (b"observe 0=down:0 ", 0, 1),
    (b"observe 0=down:0  1=down:0", 0, 1),
    (b"observe 3=down:0", 0, 1),
    (b"observe 7=down:0", 0, 1),
    (b"observe 256=down:0", 0, 1),
    (b"observe 01=down:0", 0, 1),
    (b"observe =down:0", 0, 1),
    (b"observe 1=down:0 1=down:0", 0, 1),
    (b"observe 1=down:0 0=down:0", 0, 1),
    (b"observe 0=down:0 1=down:0 3=down:0", 0, 1),
    (b"observe 0=slaves:0", 0, 1),
    (b"observe 0=Down:0", 0, 1),
    (b"observe 0=:0", 0, 1),
    (b"observe 0=down", 0, 1),
    (b"observe 0:down=0", 0, 1),
    (b"observe 0=down:", 0, 1),
    (b"observe 0=down:0:0", 0, 1),
    (b"observe 0=down:18446744073709551616", 0, 1),
    (b"observe 0=down:00", 0, 1),
];

fn source(alloc: Global, text: &[u8], fails: &[u64]) -> Result<MemSource, Fail> {
    let bytes = Text::from_slice(alloc, text)?;
    Ok(MemSource::new(bytes, CallList::from_slice(alloc, fails)?))
}

// Reads up to the end, of few events.
fn read_to_end(reader: &mut EventReader, input: &mut MemSource) -> Result<(), ReadError> {
    for _ in 0..10 {
        if reader.next(input)? == Event::End {
            break;
        }
    }
    Ok(())
}

// How many events a trace says, and which of its lines is bad, or 0.
fn read_whole(alloc: Global, text: &[u8]) -> Result<(u64, u64), Fail> {
    let mut reader = EventReader::new(alloc, THREE)?;
    read_to_end(&mut reader, &mut source(alloc, text, &[])?)?;
    Ok((reader.events(), reader.bad_line().unwrap_or(0)))
}

#[test]
fn traces_are_read(rt: HostRuntime) -> Result<(), Fail> {
    for (text, events, bad) in &TRACES {
        assert_eq!(rt; read_whole(rt.alloc(), text)?, (*events, *bad));
    }
    Ok(())
}

#[test]
fn rounds_are_read(rt: HostRuntime) -> Result<(), Fail> {
    for (text, events, bad) in &ROUNDS {
        assert_eq!(rt; read_whole(rt.alloc(), text)?, (*events, *bad));
    }
    Ok(())
}

#[test]
fn a_round_names_servers_by_index(rt: HostRuntime) -> Result<(), Fail> {
    let alloc = rt.alloc();
    let mut input = source(alloc, b"observe 1=master:12 2=down:0", &[])?;
    let mut reader = EventReader::new(alloc, THREE)?;
    let mut seen = [None; 7];
    seen[1] = Some(Seen {
        state: State::Master,
        position: 12,
    });
    seen[2] = Some(Seen {
        state: State::Down,
        position: 0,
    });
    let round = Round { seen };
    assert_eq!(rt; reader.next(&mut input)?, Event::Observed { round });
    Ok(())
}

#[test]
fn a_line_is_told_before_more_is_read(rt: HostRuntime) -> Result<(), Fail> {
    let alloc = rt.alloc();
    let mut input = source(alloc, b"gone 1\ngone 2\n", &[1])?;
    let mut reader = EventReader::new(alloc, THREE)?;
    assert_eq!(rt; reader.next(&mut input)?, Event::ClientGone { session: 1 });
    assert_eq!(rt; reader.next(&mut input)?, Event::ClientGone { session: 2 });
    assert_eq!(rt; reader.next(&mut input), Err(ReadError::Failed));
    Ok(())
}

#[test]
fn a_line_comes_in_two_pieces(rt: HostRuntime) -> Result<(), Fail> {
    let mut input = ReadSource::new(b"lo".as_slice().chain(b"st 12".as_slice()));
    let mut reader = EventReader::new(rt.alloc(), THREE)?;
    assert_eq!(rt; reader.next(&mut input)?, Event::LinkGone { link: 12 });
    assert_eq!(rt; reader.next(&mut input)?, Event::End);
    Ok(())
}

#[derive(Drop)]
struct BrokenReader;

impl Read for BrokenReader {
    fn read(&mut self, _buf: &mut [u8]) -> io::Result<usize> {
        Err(io::Error::from(io::ErrorKind::Other))
    }
}

#[test]
fn an_error_is_no_end(rt: HostRuntime) -> Result<(), Fail> {
    let mut reader = EventReader::new(rt.alloc(), THREE)?;
    let mut input = ReadSource::new(BrokenReader);
    assert_eq!(rt; reader.next(&mut input), Err(ReadError::Failed));
    Ok(())
}

#[test]
fn actions_print_lines(rt: HostRuntime) -> Result<(), Fail> {
    let alloc = rt.alloc();
    let bytes = Text::from_slice(alloc, &[0, 10, 255])?;
    let sends = Action::ToClient { session: 1, bytes };
    assert_eq!(rt;
        action_line(alloc, &sends)?.as_slice(),
        b"client 1 000aff\n".as_slice()
    );
    let opens = Action::Open {
        link: 3,
        server: 0,
        session: 2,
    };
    assert_eq!(rt;
        action_line(alloc, &opens)?.as_slice(),
        b"open 3 0 2\n".as_slice()
    );
    let reason = CloseReason::OutOfOrder { want: 0, got: 1 };
    let closes = Action::Close { session: 1, reason };
    assert_eq!(rt;
        action_line(alloc, &closes)?.as_slice(),
        b"close 1 out-of-order\n".as_slice()
    );
    Ok(())
}

#[test]
fn steps_of_the_pool_print_lines(rt: HostRuntime) -> Result<(), Fail> {
    let alloc = rt.alloc();
    let routes = PoolCall::Route { session: 7 };
    assert_eq!(rt;
        call_line(alloc, &routes)?.as_slice(),
        b"route 7\n".as_slice()
    );
    let gtid = Gtid {
        domain: 0,
        server: 11,
        sequence: 12,
    };
    let records = PoolCall::Record { server: 2, gtid };
    assert_eq!(rt;
        call_line(alloc, &records)?.as_slice(),
        b"record 2 0-11-12\n".as_slice()
    );
    Ok(())
}

#[test]
fn last_lines_are_printed(rt: HostRuntime) -> Result<(), Fail> {
    let alloc = rt.alloc();
    assert_eq!(rt; end_line(alloc, 0)?.as_slice(), b"end 0\n".as_slice());
    assert_eq!(rt; bad_line(alloc, 2)?.as_slice(), b"bad line 2\n".as_slice());
    assert!(rt; usage_line().starts_with(b"usage: rwsplit trace SETTINGS | "));
    Ok(())
}

#[test]
fn a_board_reads_lines_and_prints_lines(rt: HostRuntime) -> Result<(), Fail> {
    let alloc = rt.alloc();
    let mut input = source(alloc, b"gone 1\nbegin 1 3\n", &[])?;
    let mut out = MemSink::new(alloc, 64, CallList::from_slice(alloc, &[2])?)?;
    let mut reader = EventReader::new(alloc, THREE)?;
    let mut board = ScriptBoard::new(alloc, &mut reader, &mut input, &mut out);
    assert_eq!(rt; board.next(0), Ok(Event::ClientGone { session: 1 }));
    assert_eq!(rt; board.act(quits()), Ok(()));
    let round = Round { seen: [None; 7] };
    assert_eq!(rt; board.tell(&PoolCall::Observe { round }), Ok(()));
    assert_eq!(rt; board.next(0), Ok(Event::End));
    assert_eq!(rt; board.bad_line(), Some(2));
    assert_eq!(rt; board.act(quits()), Err(BoardFault::Failed));
    assert_eq!(rt; board.failed(), Some(Side::Output));
    drop(board);
    assert_eq!(rt; out.as_slice(), b"close 1 quit\nobserved\n".as_slice());
    Ok(())
}

fn quits() -> Action {
    let reason = CloseReason::Quit;
    Action::Close { session: 1, reason }
}
