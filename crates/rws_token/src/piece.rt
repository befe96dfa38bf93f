//! What stands at the front of a text: a token, white space, or a comment.

ghost use Rattle.std.specs.Prelude.{◌≡◌, ◌+◌, ◌≤◌, false, length};
ghost use Rattle.rws_token.specs.Ends.{enclosed_end, comment_end};
ghost use Rattle.rws_token.specs.Piece.{closed, dashes_end, behind_dash, is_executable, comment_piece, behind_slash, system_variable, is_quote, behind_at, behind_colon, behind_dot, piece_at, FitsIn};

use crate::byte::{ends_dashes, is_white, is_word_start};
use crate::end::{Run, begins_with, comment_end, enclosed_end, run_len, words_len};
use crate::token::TokenKind;

/// A piece of a text, with its length in bytes.
#[derive(Clone, Copy)]
pub(crate) enum Piece {
    /// White space, or a comment that no server executes.
    Gap(usize),
    /// A token, from its first byte to its last.
    Whole(TokenKind, usize),
    /// Something begins here that doesn't end.
    Endless,
}

/// The piece that begins with this byte.
pub(crate) fn piece_at(byte: u8, behind: &[u8]) -> Piece
    ensures piece { result ≡ piece_at byte behind.now }
    ensures within { FitsIn result (1 + length behind.now) }
{
    if is_white(byte) {
        return Piece::Gap(1);
    }
    if is_word_start(byte) {
        return Piece::Whole(TokenKind::Word, 1 + run_len(Run::Word, behind));
    }
    if byte.is_ascii_digit() {
        return Piece::Whole(TokenKind::Number, 1 + run_len(Run::Number, behind));
    }
    match byte {
        b'\'' | b'"' => enclosed(TokenKind::Str, 1, byte, behind),
        b'`' => enclosed(TokenKind::Quoted, 1, byte, behind),
        b'#' => Piece::Gap(1 + run_len(Run::Line, behind)),
        b'-' => behind_dash(behind),
        b'/' => behind_slash(behind),
        b'@' => behind_at(behind),
        b':' => behind_colon(behind),
        b'.' => behind_dot(behind),
        _ => Piece::Whole(TokenKind::Symbol, 1),
    }
}

/// A string, a quoted name, or a user variable named by one, by the bytes behind its opening.
fn enclosed(kind: TokenKind, opening: usize, quote: u8, behind: &[u8]) -> Piece
    requires some { 1 ≤ opening }
    requires few { opening ≤ 2 }
    ensures piece { result ≡ closed kind opening (enclosed_end quote false 0 behind.now) }
    ensures within { FitsIn result (opening + length behind.now) }
{
    match enclosed_end(quote, behind) {
        Some(n) => Piece::Whole(kind, opening + n),
        None => Piece::Endless,
    }
}

fn dashes_end(behind: &[u8]) -> bool
    ensures { result ≡ dashes_end behind.now }
{
    match behind {
        [byte, ..] => ends_dashes(*byte),
        [] => true,
    }
}

fn behind_dash(bytes: &[u8]) -> Piece
    ensures piece { result ≡ behind_dash bytes.now }
    ensures within { FitsIn result (1 + length bytes.now) }
{
    match bytes {
        [b'-', behind @ ..] if dashes_end(behind) => Piece::Gap(2 + run_len(Run::Line, behind)),
        _ => Piece::Whole(TokenKind::Symbol, 1),
    }
}

/// Whether a comment is one that servers execute, by its bytes behind `/*`.
fn is_executable(behind: &[u8]) -> bool
    ensures { result ≡ is_executable behind.now }
{
    match behind {
        [b'!', ..] => true,
        [b'M', rest @ ..] => begins_with(b'!', rest),
        _ => false,
    }
}

/// Behind `/*`.
fn comment(behind: &[u8]) -> Piece
    ensures piece { result ≡ comment_piece (is_executable behind.now) (comment_end 0 behind.now) }
    ensures within { FitsIn result (2 + length behind.now) }
{
    match comment_end(behind) {
        Some(n) if is_executable(behind) => Piece::Whole(TokenKind::Exec, 2 + n),
        Some(n) => Piece::Gap(2 + n),
        None => Piece::Endless,
    }
}

fn behind_slash(bytes: &[u8]) -> Piece
    ensures piece { result ≡ behind_slash bytes.now }
    ensures within { FitsIn result (1 + length bytes.now) }
{
    match bytes {
        [b'*', behind @ ..] => comment(behind),
        _ => Piece::Whole(TokenKind::Symbol, 1),
    }
}

/// Behind `@@`.
fn system_variable(bytes: &[u8]) -> Piece
    ensures piece { result ≡ system_variable bytes.now }
    ensures within { FitsIn result (2 + length bytes.now) }
{
    match bytes {
        [first, behind @ ..] if is_word_start(*first) => {
            Piece::Whole(TokenKind::SysVar, 3 + words_len(behind))
        }
        _ => Piece::Endless,
    }
}

fn is_quote(byte: u8) -> bool
    ensures { result ≡ is_quote byte }
{
    matches!(byte, b'\'' | b'"' | b'`')
}

fn behind_at(bytes: &[u8]) -> Piece
    ensures piece { result ≡ behind_at bytes.now }
    ensures within { FitsIn result (1 + length bytes.now) }
{
    match bytes {
        [b'@', behind @ ..] => system_variable(behind),
        [quote, behind @ ..] if is_quote(*quote) => enclosed(TokenKind::UserVar, 2, *quote, behind),
        [first, behind @ ..] if is_word_start(*first) => {
            Piece::Whole(TokenKind::UserVar, 2 + run_len(Run::Variable, behind))
        }
        _ => Piece::Whole(TokenKind::Symbol, 1),
    }
}

fn behind_colon(bytes: &[u8]) -> Piece
    ensures piece { result ≡ behind_colon bytes.now }
    ensures within { FitsIn result (1 + length bytes.now) }
{
    match bytes {
        [b'=', ..] => Piece::Whole(TokenKind::Assign, 2),
        _ => Piece::Whole(TokenKind::Symbol, 1),
    }
}

fn behind_dot(bytes: &[u8]) -> Piece
    ensures piece { result ≡ behind_dot bytes.now }
    ensures within { FitsIn result (1 + length bytes.now) }
{
    match bytes {
        [digit, behind @ ..] if digit.is_ascii_digit() => {
            Piece::Whole(TokenKind::Number, 2 + run_len(Run::Number, behind))
        }
        _ => Piece::Whole(TokenKind::Symbol, 1),
    }
}
