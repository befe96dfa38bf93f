//! What no contract says: that a run succeeds with ample memory, and traces from outside.
use super::*;
use crate::causal::{LOCAL, NOTHING};
use crate::routes::SEVEN_SERVERS;
use rws_board::{CallList, FileList, MemFiles, MemSink, MemSource};
use rws_select::Load;
use rws_wire::Text;
use std::alloc::Global;
use std::test::Fail;

const TRACE: [&str; 2] = ["trace", "-"];

const A_PING: &[u8] = b"begin 1 0\nclient 1 010000000e\n";

const PONG: &[u8] = b"client 1 0700000100000002000000\n";

const ROUNDS: &[u8] = b"observe 0=down:0\nobserve 0=down:0\n";

const USAGE: &[u8] =
    b"usage: rwsplit trace SETTINGS | simulate SETTINGS N SESSIONS STEPS | serve SETTINGS | check SETTINGS FILE\n";

/// Inputs with their statuses and what is printed.
const TRACES: [(&[u8], u8, &[u8]); 12] = [
    (A_PING, 0, b"client 1 0700000100000002000000\nend 2\n"),
    // a ping in five pieces
    (
        b"begin 1 0\nclient 1 01\nclient 1 00\nclient 1 00\nclient 1 00\nclient 1 0e\n",
        0,
        b"client 1 0700000100000002000000\nend 6\n",
    ),
    // a second command with the number 1
    (
        b"begin 1 0\nclient 1 010000000e\nclient 1 010000010e\n",
        0,
        b"client 1 0700000100000002000000\nclient 1 1d000001ff84042330385330317061636b657473206f7574206f66206f72646572\nclose 1 out-of-order\ndrop 1 end\nend 3\n",
    ),
    // a query, its reply, and the loss of the link behind it
    (
        b"begin 1 0\nobserve 0=master:5\nclient 1 020000000378\nlink 1 0700000100000002000000\nlost 1\n",
        0,
        b"observed\nroute 1\nlink 1 020000000378\nclient 1 0700000100000002000000\nclose 1 session-state\nend 5\n",
    ),
    // commands that the proxy answers itself: an unknown one, one that it doesn't take, an empty packet, and a quit
    (
        b"begin 1 0\nclient 1 0100000077\nclient 1 010000001f\nclient 1 00000000\nclient 1 0100000001\n",
        0,
        b"client 1 18000001ff1704233038533031756e6b6e6f776e20636f6d6d616e64\nclient 1 16000001ffd3042334323030306e6f7420737570706f72746564\nclient 1 18000001ff1704233038533031756e6b6e6f776e20636f6d6d616e64\nclose 1 quit\ndrop 1 end\nend 5\n",
    ),
    (b"", 0, b"end 0\n"),
    (b"begin 1 0\njump\n", 7, b"bad line 2\n"),
    // a server that isn't there
    (b"begin 1 0\nbegin 2 3\n", 7, b"bad line 2\n"),
    // rounds of the monitor between a session's lines
    (
        b"clock 5\nobserve 0=master:12 1=slave:12 2=down:0\nbegin 1 0\nclient 1 010000000e\nclock 5\nobserve 1=running:3\n",
        0,
        b"observed\nclient 1 0700000100000002000000\nobserved\nend 6\n",
    ),
    // the clock goes back
    (
        b"clock 2\nobserve 1=down:0\nclock 1\n",
        7,
        b"observed\nbad line 3\n",
    ),
    // a round that names a server that isn't there
    (b"observe 0=down:0 3=down:0\n", 7, b"bad line 1\n"),
    // three sessions; what names a session that isn't there, or a link that is gone, gives nothing
    (
        b"observe 2=master:5\nbegin 1 0\nbegin 5 1\nbegin 9 2\nclient 9 020000000378\nclient 2 010000000e\nclient 5 010000000e\ngone 1\nlink 1 00\nlink 3 0700000100000002000000\nclient 1 010000000e\nlink 2 00\nlost 3\nclient 9 010000000e\n",
        0,
        b"observed\nroute 9\nlink 3 020000000378\nclient 5 0700000100000002000000\ndrop 1 end\nclient 9 0700000100000002000000\ndrop 2 unasked\nclose 9 session-state\nend 14\n",
    ),
];

/// Two files of settings: the second has eight servers.
const SETTINGS: &[u8] =
    b"version = 1\n[[server]]\nname = \"a\"\naddress = \"127.0.0.1:3306\"\n[[account]]\nuser = \"app\"\npassword = \"\"\n";

const EIGHT_SERVERS: &[u8] =
    b"version = 1\nserver = [{name = \"a\", address = \"h:1\"}, {name = \"b\", address = \"h:2\"}, {name = \"c\", address = \"h:3\"}, {name = \"d\", address = \"h:4\"}, {name = \"e\", address = \"h:5\"}, {name = \"f\", address = \"h:6\"}, {name = \"g\", address = \"h:7\"}, {name = \"h\", address = \"h:8\"}]\naccount = [{user = \"app\", password = \"\"}]\n";

/// Settings by which one session may be open at one time.
const ONE_SESSION: &[u8] =
    b"version = 1\nsessions = 1\n[[server]]\nname = \"a\"\naddress = \"127.0.0.1:3306\"\n[[account]]\nuser = \"app\"\npassword = \"\"\n";

/// The files that the program may read.
fn files(alloc: Global, fails: &[u64]) -> Result<MemFiles, Fail> {
    let mut files = FileList::new(alloc);
    files.push(
        Text::from_slice(alloc, b"settings")?,
        Text::from_slice(alloc, SETTINGS)?,
    )?;
    files.push(
        Text::from_slice(alloc, b"eight")?,
        Text::from_slice(alloc, EIGHT_SERVERS)?,
    )?;
    files.push(
        Text::from_slice(alloc, b"single")?,
        Text::from_slice(alloc, ONE_SESSION)?,
    )?;
    files.push(
        Text::from_slice(alloc, b"seven")?,
        Text::from_slice(alloc, SEVEN_SERVERS)?,
    )?;
    files.push(
        Text::from_slice(alloc, b"local")?,
        Text::from_slice(alloc, LOCAL)?,
    )?;
    files.push(
        Text::from_slice(alloc, b"none")?,
        Text::from_slice(alloc, NOTHING)?,
    )?;
    Ok(MemFiles::new(files, CallList::from_slice(alloc, fails)?))
}

/// The calls that fail, by their numbers from 0: of the input, of the output, and of the files.
#[derive(Clone, Copy)]
struct Fails<'a> {
    reads: &'a [u64],
    writes: &'a [u64],
    files: &'a [u64],
}

/// No call fails.
const NONE: Fails<'static> = Fails {
    reads: &[],
    writes: &[],
    files: &[],
};

/// Runs the program over an input and an output with so much room, of which some calls fail: its status, and what it printed.
fn run_with(
    alloc: Global,
    room: u64,
    words: &[&str],
    input: &[u8],
    fails: &Fails<'_>,
) -> Result<(u8, MemSink), Fail> {
    let mut owned = Vec::new(alloc);
    for word in words {
        owned.push(String::from_str(alloc, word)?)?;
    }
    let bytes = Text::from_slice(alloc, input)?;
    let mut source = MemSource::new(bytes, CallList::from_slice(alloc, fails.reads)?);
    let mut sink = MemSink::new(alloc, room, CallList::from_slice(alloc, fails.writes)?)?;
    let mut files = files(alloc, fails.files)?;
    let score = |load: &Load| u64::from(load.pending) * 65536 + u64::from(load.links);
    let status = run_here(alloc, &owned, &mut source, &mut sink, &mut files, score);
    Ok((status, sink))
}

/// The same, where what is printed is short.
fn run_over(
    alloc: Global,
    words: &[&str],
    input: &[u8],
    read_fails: &[u64],
    write_fails: &[u64],
) -> Result<(u8, MemSink), Fail> {
    let fails = Fails {
        reads: read_fails,
        writes: write_fails,
        files: &[],
    };
    run_with(alloc, 1024, words, input, &fails)
}

/// The same with the settings of a file, where no call fails.
pub fn run_with_settings(alloc: Global, name: &str, input: &[u8]) -> Result<(u8, MemSink), Fail> {
    run_with(alloc, 4096, &["trace", name], input, &NONE)
}

/// The same with the words of a trace, where no call fails.
pub fn run_in(alloc: Global, room: u64, input: &[u8]) -> Result<(u8, MemSink), Fail> {
    run_with(alloc, room, &TRACE, input, &NONE)
}

#[test]
fn traces_are_run(rt: HostRuntime) -> Result<(), Fail> {
    for (text, status, printed) in &TRACES {
        let (ended, sink) = run_over(rt.alloc(), &TRACE, text, &[], &[])?;
        assert_eq!(rt; ended, *status);
        assert_eq!(rt; sink.as_slice(), *printed);
    }
    Ok(())
}

#[test]
fn other_words_are_refused(rt: HostRuntime) -> Result<(), Fail> {
    let no_words: [&str; 0] = [];
    let (ended, sink) = run_over(rt.alloc(), &no_words, A_PING, &[], &[])?;
    assert_eq!(rt; ended, 2);
    assert_eq!(rt; sink.as_slice(), USAGE);
    let (ended, sink) = run_over(rt.alloc(), &["serve", "-"], A_PING, &[], &[0])?;
    assert_eq!(rt; ended, 5);
    assert_eq!(rt; sink.as_slice(), b"".as_slice());
    Ok(())
}

#[test]
fn a_fault_in_mid_stream_ends_the_run(rt: HostRuntime) -> Result<(), Fail> {
    let (ended, sink) = run_over(rt.alloc(), &TRACE, A_PING, &[1], &[])?;
    assert_eq!(rt; ended, 4);
    assert_eq!(rt; sink.as_slice(), PONG);
    let (ended, sink) = run_over(rt.alloc(), &TRACE, A_PING, &[], &[1])?;
    assert_eq!(rt; ended, 5);
    assert_eq!(rt; sink.as_slice(), PONG);
    Ok(())
}

#[test]
fn a_round_that_is_not_printed_ends_the_run(rt: HostRuntime) -> Result<(), Fail> {
    let (ended, sink) = run_over(rt.alloc(), &TRACE, ROUNDS, &[], &[1])?;
    assert_eq!(rt; ended, 5);
    assert_eq!(rt; sink.as_slice(), b"observed\n".as_slice());
    Ok(())
}

/// Logins, and what is printed.
const LOGINS: [(&[u8], &[u8]); 4] = [
    // a client with an empty password is let in
    (
        b"accept 2 4142434445464748494a4b4c4d4e4f5051525354\nclient 2 3b00000101a20800000000012d000000000000000000000000000000000000000000000061707000006d7973716c5f6e61746976655f70617373776f726400\n",
        b"client 2 520000000a31302e362e302d727773706c697400020000004142434445464748000fa72d02003e001500000000000000000000494a4b4c4d4e4f5051525354006d7973716c5f6e61746976655f70617373776f726400\nclient 2 0700000200000002000000\nend 2\n",
    ),
    // an answer of 19 bytes is none
    (
        b"accept 2 4142434445464748494a4b4c4d4e4f5051525354\nclient 2 4e00000101a20800000000012d00000000000000000000000000000000000000000000007365630013111111111111111111111111111111111111116d7973716c5f6e61746976655f70617373776f726400\n",
        b"client 2 520000000a31302e362e302d727773706c697400020000004142434445464748000fa72d02003e001500000000000000000000494a4b4c4d4e4f5051525354006d7973716c5f6e61746976655f70617373776f726400\nclient 2 16000002ff15042332383030306163636573732064656e696564\nclose 2 access\nend 2\n",
    ),
    // a client that names another plugin is asked for another answer
    (
        b"accept 2 4142434445464748494a4b4c4d4e4f5051525354\nclient 2 2b00000101a20800000000012d000000000000000000000000000000000000000000000061707000006f7468657200\nclient 2 00000003\n",
        b"client 2 520000000a31302e362e302d727773706c697400020000004142434445464748000fa72d02003e001500000000000000000000494a4b4c4d4e4f5051525354006d7973716c5f6e61746976655f70617373776f726400\nclient 2 2c000002fe6d7973716c5f6e61746976655f70617373776f7264004142434445464748494a4b4c4d4e4f505152535400\nclient 2 0700000400000002000000\nend 3\n",
    ),
    // its first query opens a link, on which its login is repeated
    (
        b"accept 2 4142434445464748494a4b4c4d4e4f5051525354\nclient 2 3b00000101a20800000000012d000000000000000000000000000000000000000000000061707000006d7973716c5f6e61746976655f70617373776f726400\nobserve 0=master:5\nclient 2 020000000378\nlink 1 4f0000000a31302e362e302d66616b6500010000004141414141414141000fa22d0200ae001500000000000000000000414141414141414141414141006d7973716c5f6e61746976655f70617373776f726400\nlink 1 0700000200000002000000\nlink 1 0700000100000002000000\nlink 1 0700000100000002000000\n",
        b"client 2 520000000a31302e362e302d727773706c697400020000004142434445464748000fa72d02003e001500000000000000000000494a4b4c4d4e4f5051525354006d7973716c5f6e61746976655f70617373776f726400\nclient 2 0700000200000002000000\nobserved\nroute 2\nopen 1 0 2\nlink 1 3b00000101a2ae00000000012d000000000000000000000000000000000000000000000061707000006d7973716c5f6e61746976655f70617373776f726400\nlink 1 64000000035345542053455353494f4e2073657373696f6e5f747261636b5f73797374656d5f7661726961626c6573203d20434f4e43415428404073657373696f6e5f747261636b5f73797374656d5f7661726961626c65732c20272c6c6173745f677469642729\nlink 1 020000000378\nclient 2 0700000100000002000000\nend 8\n",
    ),
];

/// Commands that are routed, and what is printed.
const ROUTES: [(&[u8], &[u8]); 3] = [
    // a read goes to the replica with fewer links, and to the other one when its link is lost
    (
        b"observe 0=master:5 1=slave:5 2=slave:5\nbegin 1 1\nclient 1 100000000373656c65637420612066726f6d2074\nready 2\nlost 2\n",
        b"observed\nroute 1\nopen 2 2 1\nlink 2 100000000373656c65637420612066726f6d2074\nroute 1\nlink 1 100000000373656c65637420612066726f6d2074\nend 5\n",
    ),
    // a command waits for a primary as long as the settings say
    (
        b"begin 1 0\nclient 1 0e0000000364656c6574652066726f6d2074\nclock 9999\nclock 10000\n",
        b"route 1\nroute 1\nroute 1\nclient 1 13000001ff51042348593030306e6f207072696d617279\nend 4\n",
    ),
    // one whose link is lost before a byte came of its reply waits too, and then tries the same server again
    (
        b"begin 1 0\nobserve 0=master:5\nclient 1 0c0000000373686f77207461626c6573\nlink 1 01000001fb\nclock 100\n",
        b"observed\nroute 1\nlink 1 0c0000000373686f77207461626c6573\ndrop 1 bad-reply\nroute 1\nroute 1\nopen 2 0 1\nend 5\n",
    ),
];

#[test]
fn commands_are_routed(rt: HostRuntime) -> Result<(), Fail> {
    for (text, printed) in &ROUTES {
        let (ended, sink) = run_in(rt.alloc(), 4096, text)?;
        assert_eq!(rt; ended, 0);
        assert_eq!(rt; sink.as_slice(), *printed);
    }
    Ok(())
}

/// Events where one session may be open, and what is printed: a client that connects, and a session that begins, too many.
const TOO_MANY: [(&[u8], &[u8]); 2] = [
    (
        b"begin 1 0\naccept 3 4142434445464748494a4b4c4d4e4f5051525354\n",
        b"client 3 1d000000ff1004233038303034746f6f206d616e7920636f6e6e656374696f6e73\nclose 3 connections\nend 2\n",
    ),
    (b"begin 1 0\nbegin 2 0\n", b"close 2 connections\nend 2\n"),
];

#[test]
fn clients_log_in(rt: HostRuntime) -> Result<(), Fail> {
    for (text, printed) in &LOGINS {
        let (ended, sink) = run_in(rt.alloc(), 4096, text)?;
        assert_eq!(rt; ended, 0);
        assert_eq!(rt; sink.as_slice(), *printed);
    }
    Ok(())
}

#[test]
fn a_session_too_many_is_turned_away(rt: HostRuntime) -> Result<(), Fail> {
    for (text, printed) in &TOO_MANY {
        let (ended, sink) = run_with(rt.alloc(), 1024, &["trace", "single"], text, &NONE)?;
        assert_eq!(rt; ended, 0);
        assert_eq!(rt; sink.as_slice(), *printed);
    }
    Ok(())
}

/// Words over an input of one ping, with the calls of the files that fail, the status and what is printed.
const WITH_FILES: [(&[&str], &[u64], u8, &[u8]); 6] = [
    (
        &["trace", "settings"],
        &[],
        0,
        b"client 1 0700000100000002000000\nend 2\n",
    ),
    (
        &["trace", "eight"],
        &[],
        3,
        b"settings: too many servers 8\n",
    ),
    (&["trace", "missing"], &[], 4, b""),
    (&["trace", "settings"], &[0], 4, b""),
    (&["--help"], &[0], 0, USAGE),
    (&["--help", "-"], &[], 2, USAGE),
];

#[test]
fn settings_come_from_a_file(rt: HostRuntime) -> Result<(), Fail> {
    for (words, fails, status, printed) in &WITH_FILES {
        let fails = Fails {
            files: fails,
            ..NONE
        };
        let (ended, sink) = run_with(rt.alloc(), 1024, words, A_PING, &fails)?;
        assert_eq!(rt; ended, *status);
        assert_eq!(rt; sink.as_slice(), *printed);
    }
    Ok(())
}

#[test]
fn lines_are_read_by_the_settings(rt: HostRuntime) -> Result<(), Fail> {
    // one server: there is none of number 1
    let words = ["trace", "settings"];
    let (ended, sink) = run_over(rt.alloc(), &words, b"begin 1 1\n", &[], &[])?;
    assert_eq!(rt; ended, 7);
    assert_eq!(rt; sink.as_slice(), b"bad line 1\n".as_slice());
    // the refusal can't be printed
    let words = ["trace", "eight"];
    let (ended, sink) = run_over(rt.alloc(), &words, A_PING, &[], &[0])?;
    assert_eq!(rt; ended, 5);
    assert_eq!(rt; sink.as_slice(), b"".as_slice());
    Ok(())
}
