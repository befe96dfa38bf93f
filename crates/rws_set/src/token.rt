//! What the rules on values ask of one token.

ghost use Rattle.std.specs.Prelude.{◌≡◌};
ghost use Rattle.std.specs.List.{list_any};
ghost use Rattle.rws_token.specs.Lexeme.{lexeme_of};
ghost use Rattle.rws_words.specs.Windows.{place};
ghost use Rattle.rws_set.specs.Values.{is_no_setting, names_beyond, is_beyond_session, is_digit, switches_on, switches_off, switch, is_character_set, last_part_from, last_part, is_backslash, is_mode_symbol, is_mode_part};

use crate::effect::Effect;
use crate::target::{behind, without_scope};
use rws_token::{Lexeme, TokenKind, is_kind, is_symbol, is_word, same_word, unquoted};
use rws_words::{Window, is_character_set_name, is_setting};

/// Whether it is a system variable that isn't one of the session's settings.
fn is_no_setting(lexeme: &Lexeme<'_>) -> bool
    ensures { result ≡ is_no_setting (lexeme_of lexeme.now) }
{
    is_kind(lexeme, TokenKind::SysVar) && !is_setting(without_scope(behind(lexeme.bytes, 2)))
}

/// Whether it sets something itself, or isn't the session's own.
fn names_beyond(lexeme: &Lexeme<'_>) -> bool
    ensures { result ≡ names_beyond (lexeme_of lexeme.now) }
{
    is_kind(lexeme, TokenKind::Assign)
        || is_word(lexeme, b"SELECT")
        || is_word(lexeme, b"GLOBAL")
        || is_no_setting(lexeme)
}

/// Whether a value with it may be another one on another connection, or do more than give a value.
pub(crate) fn is_beyond_session(window: &Window<'_>) -> bool
    ensures { result ≡ is_beyond_session (place window.now) }
{
    names_beyond(&window.this) || window.is_primary_call() || window.is_foreign_call()
}

fn is_digit(lexeme: &Lexeme<'_>, digit: &[u8]) -> bool
    ensures { result ≡ is_digit digit.now (lexeme_of lexeme.now) }
{
    is_kind(lexeme, TokenKind::Number) && same_word(lexeme.bytes, digit)
}

fn switches_on(lexeme: &Lexeme<'_>) -> bool
    ensures { result ≡ switches_on (lexeme_of lexeme.now) }
{
    is_digit(lexeme, b"1") || is_word(lexeme, b"ON") || is_word(lexeme, b"TRUE")
}

fn switches_off(lexeme: &Lexeme<'_>) -> bool
    ensures { result ≡ switches_off (lexeme_of lexeme.now) }
{
    is_digit(lexeme, b"0") || is_word(lexeme, b"OFF") || is_word(lexeme, b"FALSE")
}

/// What autocommit is set to.
pub(crate) fn switch(lexeme: &Lexeme<'_>) -> Effect
    ensures { result ≡ switch (lexeme_of lexeme.now) }
{
    if switches_on(lexeme) {
        Effect::On
    } else if switches_off(lexeme) {
        Effect::Off
    } else {
        Effect::Wrong
    }
}

/// Whether it is a character set in which a byte below 0x80 is always a character of its own.
pub fn is_character_set(lexeme: &Lexeme<'_>) -> bool
    ensures { result ≡ is_character_set (lexeme_of lexeme.now) }
{
    match lexeme.kind {
        TokenKind::Word => is_character_set_name(lexeme.bytes),
        TokenKind::Str => is_character_set_name(unquoted(lexeme.bytes)),
        _ => false,
    }
}

/// The bytes behind the last dot.
fn last_part_of(name: &[u8]) -> &[u8]
    ensures { result.now ≡ last_part_from name.now name.now }
{
    let mut part = name;
    let mut rest = name;
    loop {
        match rest {
            [b'.', behind @ ..] => {
                part = behind;
                rest = behind;
            }
            [_, behind @ ..] => rest = behind,
            [] => return part,
        }
    }
}

/// The last part of a system variable's name.
pub fn last_part(bytes: &[u8]) -> &[u8]
    ensures { result.now ≡ last_part bytes.now }
{
    last_part_of(behind(bytes, 2))
}

fn has_backslash(bytes: &[u8]) -> bool
    ensures { result ≡ list_any is_backslash bytes.now }
{
    bytes.iter().any(|b| *b == b'\\')
}

fn is_mode_symbol(lexeme: &Lexeme<'_>) -> bool
    ensures { result ≡ is_mode_symbol (lexeme_of lexeme.now) }
{
    is_symbol(lexeme, b'(') || is_symbol(lexeme, b')') || is_symbol(lexeme, b',')
}

/// Whether it may stand in an SQL mode that is put together.
pub(crate) fn is_mode_part(lexeme: &Lexeme<'_>) -> bool
    ensures { result ≡ is_mode_part (lexeme_of lexeme.now) }
{
    match lexeme.kind {
        TokenKind::Str => !has_backslash(lexeme.bytes),
        TokenKind::Word => same_word(lexeme.bytes, b"CONCAT"),
        TokenKind::SysVar => same_word(last_part(lexeme.bytes), b"SQL_MODE"),
        _ => is_mode_symbol(lexeme),
    }
}
