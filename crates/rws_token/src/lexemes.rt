//! The tokens of a text with their bytes, one after the other. The bytes are those of the text that the tokens are
//! read from.

ghost use Rattle.std.specs.Prelude.{◌≡◌};

use crate::lexeme::Lexeme;
use crate::token::Unclosed;
use crate::tokens::Tokens;

/// Gives the tokens of a text in order, as `Tokens` does, each with its bytes.
#[derive(Drop)]
pub struct Lexemes<'a> {
    text: &'a [u8],
    tokens: Tokens<'a>,
    ghost same_text: { tokens.text ≡ text.now },
}

impl<'a> Lexemes<'a> {
    ghost use Rattle.rws_token.specs.Lexemes.{ahead, before_lexeme, RisesAtToken};

    /// The tokens of a whole text. Nothing is read yet.
    pub fn new(text: &'a [u8]) -> Lexemes<'a>
        ensures text { result.text.now ≡ text.now }
        ensures start { result.tokens.at ≡ 0 }
    {
        Lexemes {
            text,
            tokens: Tokens::new(text),
        }
    }

    /// The next token, or None at the end of the text.
    pub fn next(&mut self) -> Result<Option<Lexeme<'a>>, Unclosed>
        ensures text { self.new.text.now ≡ self.old.text.now }
        ensures lexemes { ahead self.old ≡ before_lexeme result (ahead self.new) }
        ensures rises { RisesAtToken self.old result self.new }
    {
        match self.tokens.next() {
            Ok(Some(token)) => Ok(Some(Lexeme {
                kind: token.kind,
                bytes: &self.text[token.start..token.end],
            })),
            Ok(None) => Ok(None),
            Err(unclosed) => Err(unclosed),
        }
    }
}
