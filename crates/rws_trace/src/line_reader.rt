//! The lines of a source, one at a time. What was read of a line is its front; the source is asked for more only where
//! the line doesn't end in what is held.
ghost use Rattle.std.specs.Prelude.{ℕ, List, ◌≡◌, ◌+◌, ◌<◌, ◌≤◌, ◌++◌, [], Ok, None, Some, length, IfOk, IsErrOf, MatchBool, OnOk};
ghost use Rattle.std.specs.Io.KnownBytes.{IsAtEnd};
ghost use Rattle.rws_board.specs.Faults.{Rises};
ghost use Rattle.rws_trace.specs.Gathering.{IsPart, Gathers, GoesOn};
ghost use Rattle.rws_trace.specs.Lines.{IsFeedless};
ghost use Rattle.rws_trace.specs.Reader.{Ahead, IsFound, SameAhead};
ghost use Rattle.rws_trace.specs.declared.event_line.TheConstants.{MAX_LINE};

use crate::bytes::place_of;
use crate::event_line::MAX_LINE;
use crate::found::Found;
use crate::piece::Piece;
use crate::read_error::ReadError;
use rws_board::Source;
use std::alloc::{AllocError, Global};

/// What a piece makes of a line.
#[derive(Clone, Copy)]
pub enum Gathered {
    /// The line ends in the piece.
    Line,
    TooLong,
    /// The piece is used up, and the line goes on.
    More,
}

/// Reads lines. At most one line and one piece are held.
#[derive(Drop)]
pub(crate) struct LineReader {
    /// What was read behind the line.
    pub piece: Piece,
    /// The line that was read last, without its line feed.
    pub line: Vec<u8>,
}

impl LineReader {
    pub fn new(alloc: Global) -> Result<LineReader, AllocError>
        ensures { IfOk result (λ lines. lines.piece ≡ []) }
    {
        Ok(LineReader {
            piece: Piece::new(alloc)?,
            line: Vec::new(alloc),
        })
    }

    /// Reads the next line. The source is asked for more only where no whole line is held.
    pub fn next<I: Source>(&mut self, input: &mut I) -> Result<Found, ReadError>
        ensures found { IfOk result (λ found.
            Ahead (λ before rest. IsFound found self.new.line.items before rest)
            self.old.piece (I.left input.old) self.new.piece (I.left input.new)) }
        ensures cut { IsErrOf result ReadError.Failed →
            Ahead (λ before rest. (part : List ℕ) × IsFeedless part × (before ≡ part ++ rest))
            self.old.piece (I.left input.old) self.new.piece (I.left input.new) }
        ensures drained { IsErrOf result ReadError.Failed → self.new.piece ≡ [] }
        ensures short { result ≡ Ok Found.Line → length self.new.line.items ≤ MAX_LINE }
        ensures end { result ≡ Ok Found.Nothing → IsAtEnd (I.left input.new) }
        ensures counts { I.faults input.old ≤ I.faults input.new }
        ensures failed { IsErrOf result ReadError.Failed → Rises (I.faults input.old) (I.faults input.new) }
    {
        self.line.clear();
        'pieces: loop {
            if let Some(found) = self.go_on(input)? {
                return Ok(found);
            }
        }
    }

    // Goes on behind the front of a line, by one piece.
    fn go_on<I: Source>(&mut self, input: &mut I) -> Result<Option<Found>, ReadError>
        requires { IsPart self.old.line.items }
        ensures found { IfOk result (λ found.
            Ahead (λ before rest. GoesOn found self.old.line.items before self.new.line.items rest)
            self.old.piece (I.left input.old) self.new.piece (I.left input.new)) }
        ensures part { OnOk result (IsPart self.new.line.items) }
        ensures cut { IsErrOf result ReadError.Failed → SameAhead self.old.piece (I.left input.old) self.new.piece (I.left input.new) }
        ensures drained { IsErrOf result ReadError.Failed → self.new.piece ≡ [] }
        ensures end { result ≡ Ok (Some Found.Nothing) → IsAtEnd (I.left input.new) }
        ensures longer { result ≡ Ok None → length self.old.line.items < length self.new.line.items }
        ensures counts { I.faults input.old ≤ I.faults input.new }
        ensures failed { IsErrOf result ReadError.Failed → Rises (I.faults input.old) (I.faults input.new) }
    {
        self.piece.fill(input)?;
        if self.piece.as_slice().is_empty() {
            return Ok(Some(last_line(&self.line)));
        }
        match gather(&mut self.piece, &mut self.line)? {
            Gathered::Line => Ok(Some(Found::Line)),
            Gathered::TooLong => Ok(Some(Found::TooLong)),
            Gathered::More => Ok(None),
        }
    }
}

// What a text ends with: its last line may have no line feed.
fn last_line(line: &[u8]) -> Found
    requires { IsPart line.now }
    ensures { IsFound result line.now line.now [] }
{
    if line.is_empty() {
        Found::Nothing
    } else {
        Found::Line
    }
}

// Moves what the piece has of the line behind the line's front.
fn gather(piece: &mut Piece, line: &mut Vec<u8>) -> Result<Gathered, AllocError>
    requires some { 0 < length piece.old }
    requires part { IsPart line.old.items }
    ensures gathers { IfOk result (λ gathered. Gathers gathered line.old.items piece.old line.new.items piece.new) }
    ensures part { OnOk result (IsPart line.new.items) }
{
    match place_of(b'\n', piece.as_slice()) {
        Some(end) => {
            if !append(line, &piece.as_slice()[..end])? {
                return Ok(Gathered::TooLong);
            }
            piece.skip(end + 1);
            Ok(Gathered::Line)
        }
        None => {
            if !append(line, piece.as_slice())? {
                return Ok(Gathered::TooLong);
            }
            let all = piece.as_slice().len();
            piece.skip(all);
            Ok(Gathered::More)
        }
    }
}

// Puts these bytes behind the line's front, unless that makes it too long.
fn append(line: &mut Vec<u8>, bytes: &[u8]) -> Result<bool, AllocError>
    requires { length line.old.items ≤ MAX_LINE }
    ensures { IfOk result (λ fits. MatchBool fits
        ((line.new.items ≡ line.old.items ++ bytes.now) × (length line.old.items + length bytes.now ≤ MAX_LINE))
        ((line.new.items ≡ line.old.items) × (MAX_LINE < length line.old.items + length bytes.now))) }
{
    if bytes.len() > MAX_LINE - line.len() {
        return Ok(false);
    }
    line.extend_from_slice(bytes)?;
    Ok(true)
}
