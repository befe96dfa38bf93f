//! Whole traces of prepared statements.

mod captured;

use super::results::{digit, line};
use super::tests::run_in;
use captured::{
    CONNECTOR_C, CONNECTOR_C_AT_ONCE, CONNECTOR_J, DBD_MARIADB, DBD_MYSQL, GO, MYSQL2, MYSQLI, PDO,
};
use std::alloc::{AllocError, Global};
use std::test::Fail;

/// A line of a trace, and what is printed for it.
#[derive(Clone, Copy)]
pub enum Step {
    /// The whole line.
    Line(&'static [u8], &'static [u8]),
    /// The line ends with these packets of a server, a line here for each, and the client gets each as it came: behind what stands in
    /// place of a first one, and before what else is printed.
    Passed {
        line: &'static [u8],
        told: &'static [u8],
        packets: &'static [u8],
        behind: &'static [u8],
    },
    /// The same, where the client gets none of them.
    Silent {
        line: &'static [u8],
        packets: &'static [u8],
        printed: &'static [u8],
    },
}

/// Appends a line that ends with these packets.
fn together(text: &mut Vec<u8>, start: &[u8], packets: &[u8]) -> Result<(), AllocError> {
    text.extend_from_slice(start)?;
    for byte in packets {
        if *byte != b'\n' {
            text.push(*byte)?;
        }
    }
    text.extend_from_slice(b"\n")
}

/// Appends a line for each of these packets, which the client gets.
fn each(printed: &mut Vec<u8>, packets: &[u8]) -> Result<(), AllocError> {
    let mut begins = true;
    for byte in packets {
        if begins {
            printed.extend_from_slice(b"client 1 ")?;
        }
        printed.push(*byte)?;
        begins = *byte == b'\n';
    }
    Ok(())
}

/// Appends a line of the input and what is printed for it.
fn add(text: &mut Vec<u8>, printed: &mut Vec<u8>, step: &Step) -> Result<(), AllocError> {
    match *step {
        Step::Line(start, lines) => {
            line(text, start, b"")?;
            printed.extend_from_slice(lines)
        }
        Step::Passed {
            line,
            told,
            packets,
            behind,
        } => {
            together(text, line, packets)?;
            printed.extend_from_slice(told)?;
            each(printed, packets)?;
            printed.extend_from_slice(behind)
        }
        Step::Silent {
            line,
            packets,
            printed: lines,
        } => {
            together(text, line, packets)?;
            printed.extend_from_slice(lines)
        }
    }
}

/// The input of these steps, and what is printed for it.
fn trace_of(alloc: Global, steps: &[Step]) -> Result<(Vec<u8>, Vec<u8>), AllocError> {
    let mut text = Vec::new(alloc);
    let mut printed = Vec::new(alloc);
    for step in steps {
        add(&mut text, &mut printed, step)?;
    }
    Ok((text, printed))
}

/// Runs the trace of these steps: whether what is to be printed was printed.
fn runs(alloc: Global, steps: &[Step]) -> Result<bool, Fail> {
    let (text, printed) = trace_of(alloc, steps)?;
    let (ended, sink) = run_in(alloc, 8192, text.as_slice())?;
    Ok(ended == 0 && sink.as_slice() == printed.as_slice())
}

#[test]
fn php_runs_statements(rt: HostRuntime) -> Result<(), Fail> {
    assert!(rt; runs(rt.alloc(), MYSQLI)?);
    assert!(rt; runs(rt.alloc(), PDO)?);
    Ok(())
}

#[test]
fn connector_c_runs_statements(rt: HostRuntime) -> Result<(), Fail> {
    assert!(rt; runs(rt.alloc(), CONNECTOR_C)?);
    assert!(rt; runs(rt.alloc(), CONNECTOR_C_AT_ONCE)?);
    Ok(())
}

#[test]
fn perl_runs_statements(rt: HostRuntime) -> Result<(), Fail> {
    assert!(rt; runs(rt.alloc(), DBD_MARIADB)?);
    assert!(rt; runs(rt.alloc(), DBD_MYSQL)?);
    Ok(())
}

#[test]
fn others_run_statements(rt: HostRuntime) -> Result<(), Fail> {
    assert!(rt; runs(rt.alloc(), MYSQL2)?);
    assert!(rt; runs(rt.alloc(), GO)?);
    assert!(rt; runs(rt.alloc(), CONNECTOR_J)?);
    Ok(())
}

/// A prepare of `do 1`, which has no parameters and no columns.
const PREPARE: &[u8] = b"0500000016646f2031";

/// How many statements a session may have.
const MOST: u32 = 65_536;

/// Appends the first packet of the reply to a prepare of a statement without parameters and columns, as the only one of its line.
fn prepared(text: &mut Vec<u8>, start: &[u8], id: u32) -> Result<(), AllocError> {
    text.extend_from_slice(start)?;
    text.extend_from_slice(b"0c00000100")?;
    for byte in id.to_le_bytes() {
        text.push(digit(byte / 16))?;
        text.push(digit(byte % 16))?;
    }
    text.extend_from_slice(b"00000000000000\n")
}

/// Appends the prepare with this number, its server's answer, and what is printed for both. The server's id is greater by 1,000. The
/// prepare behind the fiftieth finds the history full, so the session is kept from then on, and nothing is routed any more.
fn prepare(text: &mut Vec<u8>, printed: &mut Vec<u8>, number: u32) -> Result<(), AllocError> {
    line(text, b"client 1 ", PREPARE)?;
    prepared(text, b"link 1 ", number.wrapping_add(1000))?;
    if number <= 51 {
        line(printed, b"route 1", b"")?;
    }
    line(printed, b"link 1 ", PREPARE)?;
    prepared(printed, b"client 1 ", number)
}

/// The trace of as many prepares as there may be, and one more, which no server is sent; and what is printed for it.
fn many_prepares(alloc: Global) -> Result<(Vec<u8>, Vec<u8>), AllocError> {
    let mut text = Vec::new(alloc);
    let mut printed = Vec::new(alloc);
    text.extend_from_slice(b"begin 1 0\nobserve 0=master:5\n")?;
    printed.extend_from_slice(b"observed\n")?;
    for number in 1..=MOST {
        prepare(&mut text, &mut printed, number)?;
    }
    line(&mut text, b"client 1 ", PREPARE)?;
    line(
        &mut printed,
        b"client 1 ",
        b"1c000001ffb505233432303030746f6f206d616e792073746174656d656e7473",
    )?;
    printed.extend_from_slice(b"end 131075\n")?;
    Ok((text, printed))
}

#[test]
fn one_statement_too_many_is_refused(rt: HostRuntime) -> Result<(), Fail> {
    let (text, printed) = many_prepares(rt.alloc())?;
    let (ended, sink) = run_in(rt.alloc(), 8_000_000, text.as_slice())?;
    assert_eq!(rt; ended, 0);
    assert!(rt; sink.as_slice() == printed.as_slice());
    Ok(())
}
