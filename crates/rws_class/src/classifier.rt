//! The class of a text, in one pass over its tokens.

ghost use Rattle.std.specs.Prelude.{◌≡◌};
ghost use Rattle.rws_class.specs.Classes.{class_of};

use crate::class::Class;
use crate::number::is_unfit;
use crate::statement::Reader;
use rws_token::{Lexemes, is_symbol};
use rws_words::Window;

/// The class of a statement's text, the bytes of a COM_QUERY behind its command byte. A text that is
/// none, or more than one statement, is of class Other. What stands behind a place where the class is certainly Other
/// isn't read.
pub fn classify(text: &[u8]) -> Class
    ensures { result ≡ class_of text.now }
{
    let mut lexemes = Lexemes::new(text);
    let mut reader = Reader::new();
    let mut after_dot = false;
    let mut this = match lexemes.next() {
        Ok(Some(first)) => first,
        Ok(None) => return Class::Other,
        Err(_) => return Class::Other,
    };
    loop {
        let Ok(next) = lexemes.next() else {
            return Class::Other;
        };
        let window = Window::new(after_dot, &this, &next);
        if is_unfit(&window) {
            return Class::Other;
        }
        reader.advance(&window);
        if reader.is_other() {
            return Class::Other;
        }
        after_dot = is_symbol(&this, b'.');
        match next {
            Some(lexeme) => this = lexeme,
            None => return reader.class(),
        }
    }
}
