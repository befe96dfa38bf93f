//! What stands behind a token.

ghost use Rattle.std.specs.Prelude.{◌≡◌};
ghost use Rattle.rws_token.specs.Lexeme.{is_word, is_symbol};
ghost use Rattle.rws_words.specs.Places.{is_next, opens};
ghost use Rattle.rws_words.specs.Windows.{place};

use crate::window::Window;
use rws_token::{is_symbol, is_word};

/// Whether the token behind is this word.
pub fn is_next_word(window: &Window<'_>, text: &[u8]) -> bool
    ensures { result ≡ is_next (is_word text.now) (place window.now) }
{
    match &window.next {
        Some(next) => is_word(next, text),
        None => false,
    }
}

/// Whether the token behind is this symbol.
pub fn is_next_symbol(window: &Window<'_>, symbol: u8) -> bool
    ensures { result ≡ is_next (is_symbol symbol) (place window.now) }
{
    match &window.next {
        Some(next) => is_symbol(next, symbol),
        None => false,
    }
}

/// Whether a parenthesis follows.
pub fn is_opened(window: &Window<'_>) -> bool
    ensures { result ≡ opens (place window.now) }
{
    is_next_symbol(window, b'(')
}
