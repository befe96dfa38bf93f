//! Whole traces of a kept session's results: what comes of the server is what goes to the client, payload by payload.
ghost use Rattle.std.specs.Prelude.{◌<◌};

use super::tests::run_in;
use std::alloc::AllocError;
use std::test::Fail;

/// Inputs of one session and what is printed for them; each ends with status 0.
const RESULTS: [(&[u8], &[u8]); 5] = [
    // rows, cut anyhow: the number of columns, a definition, an EOF, two rows, an EOF
    (
        b"begin 1 0\nobserve 0=master:5\nclient 1 020000000378\nlink 1 010000010117000002\nlink 1 036465660000000161000c2d000a000000fd000000000005000003fe00000200\nlink 1 02000004013601000005fb05\nlink 1 000006fe00000200\n",
        b"observed\nroute 1\nlink 1 020000000378\nclient 1 0100000101\nclient 1 17000002036465660000000161000c2d000a000000fd0000000000\nclient 1 05000003fe00000200\nclient 1 020000040136\nclient 1 01000005fb\nclient 1 05000006fe00000200\nend 7\n",
    ),
    // a result and an OK behind it; the ping waits until both are whole
    (
        b"begin 1 0\nobserve 0=master:5\nclient 1 020000000378\nlink 1 010000010117000002036465660000000161000c2d000a000000fd000000000005000003fe00000a0002000004013505000005fe00000a00\nclient 1 010000000e\nlink 1 0700000600000002000000\n",
        b"observed\nroute 1\nlink 1 020000000378\nclient 1 0100000101\nclient 1 17000002036465660000000161000c2d000a000000fd0000000000\nclient 1 05000003fe00000a00\nclient 1 020000040135\nclient 1 05000005fe00000a00\nclient 1 0700000600000002000000\nclient 1 0700000100000002000000\nend 6\n",
    ),
    // an ERR in place of a row
    (
        b"begin 1 0\nobserve 0=master:5\nclient 1 020000000378\nlink 1 010000010117000002036465660000000161000c2d000a000000fd000000000005000003fe0000020002000004013512000005ffbd0423485930303064656164206c6f636b\n",
        b"observed\nroute 1\nlink 1 020000000378\nclient 1 0100000101\nclient 1 17000002036465660000000161000c2d000a000000fd0000000000\nclient 1 05000003fe00000200\nclient 1 020000040135\nclient 1 12000005ffbd0423485930303064656164206c6f636b\nend 4\n",
    ),
    // COM_FIELD_LIST: definitions without their number before them
    (
        b"begin 1 0\nobserve 0=master:5\nclient 1 03000000047400\nlink 1 18000001036465660000000161000c2d000a000000fd0000000000fb05000002fe00000200\n",
        b"observed\nroute 1\nlink 1 03000000047400\nclient 1 18000001036465660000000161000c2d000a000000fd0000000000fb\nclient 1 05000002fe00000200\nend 4\n",
    ),
    // an OK with a session state, which the client gets without it
    (
        b"begin 1 0\nobserve 0=master:5\nclient 1 020000000378\nlink 1 1b0000010001000240000000120010096c6173745f6774696405302d312d37\n",
        b"observed\nroute 1\nlink 1 020000000378\nrecord 0 0-1-7\nclient 1 0700000100010002000000\nend 4\n",
    ),
];

#[test]
fn results_are_passed_on(rt: HostRuntime) -> Result<(), Fail> {
    for (text, printed) in &RESULTS {
        let (ended, sink) = run_in(rt.alloc(), 1024, text)?;
        assert_eq!(rt; ended, 0);
        assert_eq!(rt; sink.as_slice(), *printed);
    }
    Ok(())
}

/// A hundred letters `a` in hex.
const LETTERS: &[u8] =
    b"61616161616161616161616161616161616161616161616161616161616161616161616161616161616161616161616161616161616161616161616161616161616161616161616161616161616161616161616161616161616161616161616161616161";

/// The first part of a result, as the reply to a command of two packets: a column and its definition.
const FRONT: &[u8] =
    b"010000020117000003036465660000000161000c2d000a000000fd000000000005000004fe00000200";

/// Appends a line.
pub fn line(text: &mut Vec<u8>, start: &[u8], bytes: &[u8]) -> Result<(), AllocError> {
    text.extend_from_slice(start)?;
    text.extend_from_slice(bytes)?;
    text.extend_from_slice(b"\n")
}

/// Appends so many hundreds of letters in hex.
fn letters(text: &mut Vec<u8>, hundreds: u32) -> Result<(), AllocError> {
    for _ in 0..hundreds {
        text.extend_from_slice(LETTERS)?;
    }
    Ok(())
}

/// Appends lines of so many hundreds of letters in all, of 5,000 hundreds each but the last.
fn letter_lines(text: &mut Vec<u8>, start: &[u8], hundreds: u32) -> Result<(), AllocError> {
    for _ in 0..hundreds / 5000 {
        text.extend_from_slice(start)?;
        letters(text, 5000)?;
        text.extend_from_slice(b"\n")?;
    }
    text.extend_from_slice(start)?;
    letters(text, hundreds % 5000)?;
    text.extend_from_slice(b"\n")
}

/// Appends a payload of 17,000,000 bytes in two packets: the header of the first, what stands in it beside whole hundreds of
/// letters, and these; and the header of the second, 85 letters and whole hundreds. It comes in many lines.
fn pieces(text: &mut Vec<u8>, start: &[u8], first: &[u8], second: &[u8]) -> Result<(), AllocError> {
    line(text, start, first)?;
    letter_lines(text, start, 167_772)?;
    line(text, start, second)?;
    line(text, start, &LETTERS[..170])?;
    letter_lines(text, start, 2227)
}

/// Appends the same in one line.
fn whole(text: &mut Vec<u8>, start: &[u8], first: &[u8], second: &[u8]) -> Result<(), AllocError> {
    text.extend_from_slice(start)?;
    text.extend_from_slice(first)?;
    letters(text, 167_772)?;
    text.extend_from_slice(second)?;
    text.extend_from_slice(&LETTERS[..170])?;
    letters(text, 2227)?;
    text.extend_from_slice(b"\n")
}

/// COM_QUERY with 14 letters, and a row with 15.
const QUERY: &[u8] = b"ffffff00036161616161616161616161616161";

const ROW: &[u8] = b"ffffff05616161616161616161616161616161";

#[test]
fn large_payloads_are_passed_on(rt: HostRuntime) -> Result<(), Fail> {
    let mut text = Vec::new(rt.alloc());
    text.extend_from_slice(b"begin 1 0\nobserve 0=master:5\n")?;
    pieces(&mut text, b"client 1 ", QUERY, b"41660301")?;
    line(&mut text, b"link 1 ", FRONT)?;
    pieces(&mut text, b"link 1 ", ROW, b"41660306")?;
    line(&mut text, b"link 1 ", b"05000007fe00000200")?;
    let mut printed = Vec::new(rt.alloc());
    printed.extend_from_slice(b"observed\nroute 1\n")?;
    whole(&mut printed, b"link 1 ", QUERY, b"41660301")?;
    line(&mut printed, b"client 1 ", &FRONT[..10])?;
    line(&mut printed, b"client 1 ", &FRONT[10..64])?;
    line(&mut printed, b"client 1 ", &FRONT[64..])?;
    whole(&mut printed, b"client 1 ", ROW, b"41660306")?;
    line(&mut printed, b"client 1 ", b"05000007fe00000200")?;
    printed.extend_from_slice(b"end 80\n")?;
    let (ended, sink) = run_in(rt.alloc(), 70_000_000, text.as_slice())?;
    assert_eq!(rt; ended, 0);
    assert!(rt; sink.as_slice() == printed.as_slice());
    Ok(())
}

/// Appends rows that hold NULL, a line each, whose numbers count on from 4.
fn rows(text: &mut Vec<u8>, start: &[u8], count: u32) -> Result<(), AllocError> {
    let mut number: u8 = 4;
    for _ in 0..count {
        text.extend_from_slice(start)?;
        text.extend_from_slice(b"010000")?;
        text.push(digit(number / 16))?;
        text.push(digit(number % 16))?;
        text.extend_from_slice(b"fb\n")?;
        number = number.wrapping_add(1);
    }
    Ok(())
}

/// A digit in hex.
pub fn digit(value: u8) -> u8
    requires { value < 16 }
{
    if value < 10 {
        b'0' + value
    } else {
        b'a' + (value - 10)
    }
}

#[test]
fn many_rows_are_passed_on(rt: HostRuntime) -> Result<(), Fail> {
    let mut text = Vec::new(rt.alloc());
    text.extend_from_slice(
        b"begin 1 0\nobserve 0=master:5\nclient 1 020000000378\nlink 1 010000010117000002036465660000000161000c2d000a000000fd000000000005000003fe00000200\n",
    )?;
    rows(&mut text, b"link 1 ", 100_000)?;
    line(&mut text, b"link 1 ", b"050000a4fe00000200")?;
    let mut printed = Vec::new(rt.alloc());
    printed.extend_from_slice(
        b"observed\nroute 1\nlink 1 020000000378\nclient 1 0100000101\nclient 1 17000002036465660000000161000c2d000a000000fd0000000000\nclient 1 05000003fe00000200\n",
    )?;
    rows(&mut printed, b"client 1 ", 100_000)?;
    line(&mut printed, b"client 1 ", b"050000a4fe00000200")?;
    printed.extend_from_slice(b"end 100005\n")?;
    let (ended, sink) = run_in(rt.alloc(), 3_000_000, text.as_slice())?;
    assert_eq!(rt; ended, 0);
    assert!(rt; sink.as_slice() == printed.as_slice());
    Ok(())
}
