//! However the bytes of a trace are cut, the same is printed: eleven traces, each cut in two hundred ways.

use super::causal::READS;
use super::routes::SESSIONS;
use super::tests::run_with_settings;
use std::alloc::{AllocError, Global};
use std::test::Fail;

/// How often each trace is cut.
const CUTTINGS: u64 = 200;

/// Numbers that look like chance, from a seed that isn't 0 (xorshift, with the shifts 13, 7 and 17).
#[derive(Drop)]
struct Numbers {
    state: u64,
}

impl Numbers {
    /// The next number has so many low bits that are 0 with the chance that chance has: a piece ends here with one of eight.
    fn ends_a_piece(&mut self) -> bool {
        self.state ^= self.state << 13;
        self.state ^= self.state >> 7;
        self.state ^= self.state << 17;
        self.state & 7 == 0
    }
}

/// The length of what stands in front of the bytes of a line: `client 1 `, say. None where the line has no bytes.
fn front_of(line: &[u8]) -> Option<usize> {
    if !line.starts_with(b"client ") && !line.starts_with(b"link ") {
        return None;
    }
    let mut words = line.split(|byte| *byte == b' ');
    let (kind, number) = (words.next()?, words.next()?);
    Some(kind.len() + number.len() + 2)
}

/// Appends a line, cut into pieces of whole bytes: a line for each.
fn cut_line(line: &[u8], numbers: &mut Numbers, out: &mut Vec<u8>) -> Result<(), AllocError> {
    let Some(at) = front_of(line) else {
        out.extend_from_slice(line)?;
        return out.extend_from_slice(b"\n");
    };
    let (front, bytes) = (
        line.get(..at).unwrap_or_default(),
        line.get(at..).unwrap_or_default(),
    );
    let mut begins = true;
    for pair in bytes.chunks(2) {
        if begins {
            out.extend_from_slice(front)?;
        }
        out.extend_from_slice(pair)?;
        begins = numbers.ends_a_piece();
        if begins {
            out.extend_from_slice(b"\n")?;
        }
    }
    if !begins {
        out.extend_from_slice(b"\n")?;
    }
    Ok(())
}

/// A trace whose bytes are cut.
fn cut(alloc: Global, text: &[u8], numbers: &mut Numbers) -> Result<Vec<u8>, AllocError> {
    let mut out = Vec::new(alloc);
    for line in text.split(|byte| *byte == b'\n') {
        if !line.is_empty() {
            cut_line(line, numbers, &mut out)?;
        }
    }
    Ok(out)
}

/// It is the line that counts the lines of the input.
fn is_end(line: &[u8]) -> bool {
    line.starts_with(b"end ")
}

/// The same is printed, but for the number of lines that were read.
fn is_same(one: &[u8], other: &[u8]) -> bool {
    let mut others = other.split(|byte| *byte == b'\n');
    for line in one.split(|byte| *byte == b'\n') {
        let Some(its) = others.next() else {
            return false;
        };
        if line != its && !(is_end(line) && is_end(its)) {
            return false;
        }
    }
    others.next().is_none()
}

/// However a trace is cut, it prints the same as its whole lines do.
fn prints_the_same(
    alloc: Global,
    settings: &str,
    text: &[u8],
    printed: &[u8],
) -> Result<bool, Fail> {
    for seed in 1..=CUTTINGS {
        let mut numbers = Numbers {
            state: seed.wrapping_mul(0x9E37_79B9_7F4A_7C15),
        };
        let input = cut(alloc, text, &mut numbers)?;
        let (ended, sink) = run_with_settings(alloc, settings, &input)?;
        if ended != 0 || !is_same(sink.as_slice(), printed) {
            return Ok(false);
        }
    }
    Ok(true)
}

#[test]
fn sessions_that_are_cut_print_the_same(rt: HostRuntime) -> Result<(), Fail> {
    for (text, printed) in &SESSIONS {
        assert!(rt; prints_the_same(rt.alloc(), "seven", text, printed)?);
    }
    Ok(())
}

#[test]
fn reads_that_are_cut_print_the_same(rt: HostRuntime) -> Result<(), Fail> {
    for (text, printed) in &READS {
        assert!(rt; prints_the_same(rt.alloc(), "-", text, printed)?);
    }
    Ok(())
}
