//! What stands in front of the `=` of an item of SET: the variable that it sets.

ghost use Rattle.std.specs.Prelude.{◌≡◌, drop, take};
ghost use Rattle.std.specs.Option.{option_map};
ghost use Rattle.rws_token.specs.Lexeme.{lexeme_of};
ghost use Rattle.rws_set.specs.Targets.{variable_of, setting, begins_scope, without_scope, word_target, any_target, is_scope, is_equals};
ghost use Rattle.rws_set.specs.Views.{target_of};

use rws_token::{Lexeme, TokenKind, is_kind, is_symbol, is_word, same_word};
use rws_words::is_setting;

/// What is set, as far as the rules on values differ.
#[derive(Clone, Copy, Debug, PartialEq, Eq)]
pub enum Variable {
    Plain,
    Autocommit,
    SqlMode,
    CharacterSet,
}

/// A variable by its name: as it is written, but for its scope. A user variable's name begins with `@`.
#[derive(Clone, Copy)]
pub struct Target<'a> {
    pub variable: Variable,
    pub name: &'a [u8],
}

fn variable_of(name: &[u8]) -> Variable
    ensures { result ≡ variable_of name.now }
{
    if same_word(name, b"AUTOCOMMIT") {
        Variable::Autocommit
    } else if same_word(name, b"SQL_MODE") {
        Variable::SqlMode
    } else if same_word(name, b"CHARACTER_SET_CLIENT") {
        Variable::CharacterSet
    } else {
        Variable::Plain
    }
}

fn setting(name: &[u8]) -> Option<Target<'_>>
    ensures { option_map target_of result ≡ setting name.now }
{
    if is_setting(name) {
        Some(Target {
            variable: variable_of(name),
            name,
        })
    } else {
        None
    }
}

/// The bytes without so many at the front.
pub(crate) fn behind(bytes: &[u8], count: usize) -> &[u8]
    ensures { result.now ≡ drop count bytes.now }
{
    if count <= bytes.len() {
        &bytes[count..]
    } else {
        &[]
    }
}

/// So many bytes at the front, or all.
pub(crate) fn front(bytes: &[u8], count: usize) -> &[u8]
    ensures { result.now ≡ take count bytes.now }
{
    if count <= bytes.len() {
        &bytes[..count]
    } else {
        bytes
    }
}

/// Whether the name begins with this scope and its dot.
fn begins(name: &[u8], scope: &[u8]) -> bool
    ensures { result ≡ begins_scope scope.now name.now }
{
    same_word(front(name, scope.len()), scope)
}

/// A name without `session.` or `local.` in front.
pub(crate) fn without_scope(name: &[u8]) -> &[u8]
    ensures { result.now ≡ without_scope name.now }
{
    if begins(name, b"SESSION.") {
        behind(name, 8)
    } else if begins(name, b"LOCAL.") {
        behind(name, 6)
    } else {
        name
    }
}

/// A variable of the session by its name alone.
pub(crate) fn word_target<'a>(lexeme: &Lexeme<'a>) -> Option<Target<'a>>
    ensures { option_map target_of result ≡ word_target (lexeme_of lexeme.now) }
{
    if is_kind(lexeme, TokenKind::Word) {
        setting(lexeme.bytes)
    } else {
        None
    }
}

/// A user variable, or a variable of the session by its name or behind `@@`.
pub(crate) fn any_target<'a>(lexeme: &Lexeme<'a>) -> Option<Target<'a>>
    ensures { option_map target_of result ≡ any_target (lexeme_of lexeme.now) }
{
    match lexeme.kind {
        TokenKind::UserVar => Some(Target {
            variable: Variable::Plain,
            name: lexeme.bytes,
        }),
        TokenKind::SysVar => setting(without_scope(behind(lexeme.bytes, 2))),
        _ => word_target(lexeme),
    }
}

pub(crate) fn is_scope(lexeme: &Lexeme<'_>) -> bool
    ensures { result ≡ is_scope (lexeme_of lexeme.now) }
{
    is_word(lexeme, b"SESSION") || is_word(lexeme, b"LOCAL")
}

pub(crate) fn is_equals(lexeme: &Lexeme<'_>) -> bool
    ensures { result ≡ is_equals (lexeme_of lexeme.now) }
{
    is_kind(lexeme, TokenKind::Assign) || is_symbol(lexeme, b'=')
}
