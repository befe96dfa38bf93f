//! Which tokens are calls, and of what. A word is looked up in the lists here alone.

ghost use Rattle.std.specs.Prelude.{◌≡◌};
ghost use Rattle.std.specs.Option.{option_map};
ghost use Rattle.rws_token.specs.Lexeme.{lexeme_of, is_symbol};
ghost use Rattle.rws_words.specs.Places.{passes, place_at, is_name, call_of_word, call_of};

use crate::lists::{is_key_word, is_primary, is_pure};
use rws_token::{Lexeme, TokenKind, is_kind, is_symbol};

/// What a token calls.
#[derive(Clone, Copy)]
pub(crate) enum Call {
    /// It is no call.
    NoCall,
    /// A function that reads no more than its arguments, clocks and random numbers.
    Pure,
    /// A function that only the primary's connection answers as the client expects it.
    Primary,
    /// A function of which it isn't known what it does.
    Foreign,
}

/// Whether the token is a word or a quoted name.
pub fn is_name(lexeme: &Lexeme<'_>) -> bool
    ensures { result ≡ is_name (lexeme_of lexeme.now) }
{
    is_kind(lexeme, TokenKind::Word) || is_kind(lexeme, TokenKind::Quoted)
}

fn call_of_word(name: &[u8]) -> Call
    ensures { result ≡ call_of_word name.now }
{
    if is_key_word(name) {
        Call::NoCall
    } else if is_pure(name) {
        Call::Pure
    } else if is_primary(name) {
        Call::Primary
    } else {
        Call::Foreign
    }
}

/// What the token `this` calls, behind a dot or not and in front of the token `next`.
pub(crate) fn call_of(after_dot: bool, this: &Lexeme<'_>, next: &Option<Lexeme<'_>>) -> Call
    ensures { result ≡ call_of (place_at after_dot this.now next.now) }
{
    if !is_name(this) || !opens(next) {
        Call::NoCall
    } else if is_kind(this, TokenKind::Word) && !after_dot {
        call_of_word(this.bytes)
    } else {
        Call::Foreign
    }
}

fn opens(next: &Option<Lexeme<'_>>) -> bool
    ensures { result ≡ passes (is_symbol 40) (option_map lexeme_of next.now) }
{
    match next {
        Some(next) => is_symbol(next, b'('),
        None => false,
    }
}
