//! A token with its bytes, and the tests that rules make of one. Words are compared without regard to the case of
//! ASCII letters.

ghost use Rattle.std.specs.Prelude.{◌≡◌};
ghost use Rattle.rws_token.specs.Lexeme.{lexeme_of, is_kind, same_word, is_word, is_symbol, unquoted};

use crate::token::TokenKind;

/// A token of a text, and the bytes of the text that it is.
#[derive(Clone, Copy)]
pub struct Lexeme<'a> {
    /// What it is.
    pub kind: TokenKind,
    /// All its bytes, a string's quotes too.
    pub bytes: &'a [u8],
}

/// Whether two texts are the same but for the case of ASCII letters.
pub fn same_word(word: &[u8], text: &[u8]) -> bool
    ensures { result ≡ same_word word.now text.now }
{
    word.eq_ignore_ascii_case(text)
}

/// Whether the token is of this kind.
pub fn is_kind(lexeme: &Lexeme<'_>, kind: TokenKind) -> bool
    ensures { result ≡ is_kind lexeme.now.kind kind }
{
    lexeme.kind == kind
}

/// Whether the token is this word.
pub fn is_word(lexeme: &Lexeme<'_>, text: &[u8]) -> bool
    ensures { result ≡ is_word text.now (lexeme_of lexeme.now) }
{
    is_kind(lexeme, TokenKind::Word) && same_word(lexeme.bytes, text)
}

/// Whether the token is this symbol.
pub fn is_symbol(lexeme: &Lexeme<'_>, symbol: u8) -> bool
    ensures { result ≡ is_symbol symbol (lexeme_of lexeme.now) }
{
    is_kind(lexeme, TokenKind::Symbol) && matches!(lexeme.bytes, [byte] if *byte == symbol)
}

/// The bytes of a quoted name, or of a string, without its quotes.
pub fn unquoted(bytes: &[u8]) -> &[u8]
    ensures { result.now ≡ unquoted bytes.now }
{
    match bytes {
        [_, inside @ .., _] => inside,
        _ => &[],
    }
}
