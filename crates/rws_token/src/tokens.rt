//! The tokens of a text, one after the other.

ghost use Rattle.std.specs.Prelude.{◌≡◌, ◌+◌, ◌^◌, ◌<◌, length};
ghost use Rattle.rws_token.specs.Lexed.{lexed_from, lexed_behind, before_answer, LiesIn};

use crate::piece::{Piece, piece_at};
use crate::token::{Token, Unclosed};
use std::marker::Model;

/// Gives the tokens of a text in order. White space and comments lie between them.
#[derive(Drop)]
pub struct Tokens<'a> {
    text: &'a [u8],
    at: usize,
}

impl<'a> Model for Tokens<'a> {
    ghost use Rattle.std.specs.Prelude.{◌≤◌, length};
    ghost use Rattle.rws_token.specs.Lexed.{Progress};

    ghost Value = { Progress };

    ghost view = { λ t. record { text = t.text.now; at = t.at } };

    ghost invariant = { λ t. t.at ≤ length t.text.now };
}

impl<'a> Tokens<'a> {
    ghost use Rattle.std.specs.Prelude.{◌≡◌};
    ghost use Rattle.rws_token.specs.Lexed.{left_of, before_answer, Moves};

    /// The tokens of a whole text. Nothing is read yet.
    pub fn new(text: &'a [u8]) -> Tokens<'a>
        ensures { result ≡ record { text = text.now; at = 0 } }
    {
        Tokens { text, at: 0 }
    }

    /// The next token, or None at the end of the text. An `Err`, and a None, comes again at each
    /// further call.
    pub fn next(&mut self) -> Result<Option<Token>, Unclosed>
        ensures text { self.new.text ≡ self.old.text }
        ensures tokens { left_of self.old ≡ before_answer result (left_of self.new) }
        ensures spans { Moves self.old result self.new }
    {
        let answer = next_token(&self.text[self.at..], self.at);
        if let Ok(Some(token)) = &answer {
            self.at = token.end;
        }
        answer
    }
}

/// The first token of these bytes, the first of which has the place `at`.
fn next_token(bytes: &[u8], at: usize) -> Result<Option<Token>, Unclosed>
    requires { at + length bytes.now < 2 ^ 64 }
    ensures tokens { lexed_from 0 at bytes.now ≡ before_answer result (lexed_behind at bytes.now result) }
    ensures spans { LiesIn at (at + length bytes.now) result }
{
    let mut rest = bytes;
    let mut start = at;
    loop {
        match rest {
            [byte, behind @ ..] => match piece_at(*byte, behind) {
                Piece::Gap(n) => {
                    rest = rest.split_at(n).1;
                    start += n;
                }
                Piece::Whole(kind, n) => {
                    let end = start + n;
                    return Ok(Some(Token { kind, start, end }));
                }
                Piece::Endless => return Err(Unclosed { at: start }),
            },
            [] => return Ok(None),
        }
    }
}
