//! A token with what stands beside it. What it calls is looked up once, when the window is made, and stands in it.

ghost use Rattle.std.specs.Prelude.{◌≡◌};
ghost use Rattle.rws_words.specs.Places.{place_at, call_of};

use crate::call::{Call, call_of};
use rws_token::Lexeme;

/// A token, whether a dot stands right before it, and the token behind it.
#[derive(Clone, Copy)]
pub struct Window<'a> {
    pub after_dot: bool,
    pub this: Lexeme<'a>,
    pub next: Option<Lexeme<'a>>,
    call: Call,
    ghost called: { call ≡ call_of (place_at after_dot this next) },
}

impl<'a> Window<'a> {
    ghost use Rattle.rws_words.specs.Places.{is_primary_call, is_foreign_call};
    ghost use Rattle.rws_words.specs.Windows.{place};

    /// The token `this` with what stands beside it.
    pub fn new(after_dot: bool, this: &Lexeme<'a>, next: &Option<Lexeme<'a>>) -> Window<'a>
        ensures { place result ≡ place_at after_dot this.now next.now }
    {
        Window {
            after_dot,
            this: *this,
            next: *next,
            call: call_of(after_dot, this, next),
        }
    }

    /// Whether this is a call that only the primary's connection answers as the client expects it.
    pub fn is_primary_call(&self) -> bool
        ensures { result ≡ is_primary_call (place self.now) }
    {
        matches!(self.call, Call::Primary)
    }

    /// Whether this is a call of a function of which it isn't known what it does.
    pub fn is_foreign_call(&self) -> bool
        ensures { result ≡ is_foreign_call (place self.now) }
    {
        matches!(self.call, Call::Foreign)
    }
}
