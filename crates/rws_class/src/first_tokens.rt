//! The first tokens of a statement, kept until it is known whether the statement has a fixed form.

ghost use Rattle.std.specs.Prelude.{◌≡◌, ◌≤◌, [], ◌∷◌, List, length};
ghost use Rattle.rws_token.specs.Lexeme as tokens;
ghost use Rattle.rws_token.specs.Lexeme.{lexeme_of};
ghost use Rattle.rws_class.specs.Forms.{form_class, forms};

use crate::class::Class;
use crate::form::fixed_class;
use rws_token::{Lexeme, TokenKind};

/// One more token than the longest form has. A statement of so many tokens has none.
const CAPACITY: usize = 8;

#[derive(Clone, Copy)]
pub(crate) struct FirstTokens<'a> {
    lexemes: [Lexeme<'a>; CAPACITY],
    len: usize,
    ghost in_range: { len ≤ 8 },
    ghost whole: { length lexemes ≡ 8 },
}

impl<'a> FirstTokens<'a> {
    ghost use Rattle.rws_class.specs.FirstTokens.{fixed_left};

    pub(crate) fn new() -> FirstTokens<'a>
        ensures { (ts : List tokens.Lexeme) → fixed_left result ts ≡ form_class forms ts }
    {
        let none = Lexeme {
            kind: TokenKind::Symbol,
            bytes: b"",
        };
        FirstTokens {
            lexemes: [none; CAPACITY],
            len: 0,
        }
    }

    /// Begins with the first word.
    pub(crate) fn begin(first: &Lexeme<'a>) -> FirstTokens<'a>
        ensures { (ts : List tokens.Lexeme) → fixed_left result ts ≡ form_class forms (lexeme_of first.now ∷ ts) }
    {
        let mut first_tokens = FirstTokens::new();
        first_tokens.read(first);
        first_tokens
    }

    pub(crate) fn read(&mut self, lexeme: &Lexeme<'a>)
        ensures { (ts : List tokens.Lexeme) → fixed_left self.new ts ≡ fixed_left self.old (lexeme_of lexeme.now ∷ ts) }
    {
        if self.len < CAPACITY {
            self.lexemes[self.len] = *lexeme;
            self.len += 1;
        }
    }

    pub(crate) fn class(&self) -> Class
        ensures { result ≡ fixed_left self.now [] }
    {
        fixed_class(&self.lexemes[..self.len])
    }
}
