//! The tokens of a statement, from its first word on: opening parentheses in front of it, and semicolons, are left out.

ghost use Rattle.std.specs.Prelude.{◌≡◌, ◌&&◌, ◌||◌, not};
ghost use Rattle.rws_token.specs.Lexeme.{lexeme_of, is_symbol};
ghost use Rattle.rws_vars.specs.Assignments.{statement_of};
ghost use Rattle.rws_vars.specs.States.{tokens_left, before_token, Rises};

use rws_token::{Lexeme, Lexemes, is_symbol};

/// Gives the tokens of a statement in order.
#[derive(Drop)]
pub(crate) struct Statement<'a> {
    lexemes: Lexemes<'a>,
    /// Whether the first word was given.
    begun: bool,
}

impl<'a> Statement<'a> {
    /// The tokens of a whole text. None is given yet.
    pub(crate) fn new(text: &'a [u8]) -> Statement<'a>
        ensures tokens { tokens_left result ≡ statement_of text.now }
        ensures text { result.lexemes.text.now ≡ text.now }
        ensures start { result.lexemes.tokens.at ≡ 0 }
    {
        Statement {
            lexemes: Lexemes::new(text),
            begun: false,
        }
    }

    fn leaves_out(&self, lexeme: &Lexeme<'_>) -> bool
        ensures { result ≡ (is_symbol 59 (lexeme_of lexeme.now) || (not self.now.begun && is_symbol 40 (lexeme_of lexeme.now))) }
    {
        is_symbol(lexeme, b';') || !self.begun && is_symbol(lexeme, b'(')
    }

    /// The next token, or None at the end, and where the text has a fault.
    pub(crate) fn next(&mut self) -> Option<Lexeme<'a>>
        ensures text { self.new.lexemes.text.now ≡ self.old.lexemes.text.now }
        ensures tokens { tokens_left self.old ≡ before_token result (tokens_left self.new) }
        ensures rises { Rises self.old result self.new }
    {
        loop {
            match self.lexemes.next() {
                Ok(Some(lexeme)) if self.leaves_out(&lexeme) => {}
                Ok(Some(lexeme)) => {
                    self.begun = true;
                    return Some(lexeme);
                }
                Ok(None) => return None,
                Err(_) => return None,
            }
        }
    }
}
