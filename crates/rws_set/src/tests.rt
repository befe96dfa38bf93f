//! What lists of items do, and tokens that are character sets.

use crate::{Effect, Items, is_character_set};
use rws_token::{Lexeme, Lexemes, TokenKind, is_symbol};
use rws_words::Window;

/// What may stand behind SET, and sets variables alone.
const PLAIN: [&str; 5] = [
    "@a = 1, session time_zone := 'UTC'",
    "@a = (1, 2), @@wait_timeout = 3",
    "sql_mode = concat('STRICT_', 'ALL_TABLES')",
    "character_set_client = 'utf8mb4'",
    "lock_wait_timeout = default",
];

/// What also switches autocommit, and how.
const SWITCHES: [(&str, Effect); 3] = [
    ("@@session.autocommit = on, @a = 2", Effect::On),
    ("local autocommit := 1", Effect::On),
    ("@a = 2, autocommit = 0", Effect::Off),
];

/// What can't be repeated on other connections, or is no list of items.
const WRONG: [&str; 12] = [
    "@a = (select 1)",
    "@a = sleep(1)",
    "@a = last_insert_id()",
    "@a = @@hostname",
    "",
    "@a = 1,",
    "@a = @b := 1",
    "max_connections = 1",
    "@@global.autocommit = 1",
    "autocommit = 1, autocommit = 0",
    "sql_mode = concat('AN', 'SI')",
    "character_set_client = gbk",
];

/// A token, and whether it is a character set of the list.
const CHARACTER_SETS: [(TokenKind, &str, bool); 4] = [
    (TokenKind::Word, "Utf8mb4", true),
    (TokenKind::Str, "'latin1'", true),
    (TokenKind::Word, "gbk", false),
    (TokenKind::Quoted, "`utf8`", false),
];

/// What the items of a text do.
fn effect_of(text: &[u8]) -> Effect {
    let mut lexemes = Lexemes::new(text);
    let mut items = Items::new();
    let mut after_dot = false;
    let mut this = match lexemes.next() {
        Ok(Some(first)) => first,
        _ => return items.effect(),
    };
    loop {
        let Ok(next) = lexemes.next() else {
            return Effect::Wrong;
        };
        items.read(&Window::new(after_dot, &this, &next));
        after_dot = is_symbol(&this, b'.');
        match next {
            Some(lexeme) => this = lexeme,
            None => return items.effect(),
        }
    }
}

#[test]
fn items_that_set_variables(rt: HostRuntime) {
    for text in &PLAIN {
        assert_eq!(rt; effect_of(text.as_bytes()), Effect::Plain, "{text}");
    }
}

#[test]
fn items_that_switch_autocommit(rt: HostRuntime) {
    for (text, effect) in &SWITCHES {
        assert_eq!(rt; effect_of(text.as_bytes()), *effect, "{text}");
    }
}

#[test]
fn items_that_cannot_be_repeated(rt: HostRuntime) {
    for text in &WRONG {
        assert_eq!(rt; effect_of(text.as_bytes()), Effect::Wrong, "{text}");
    }
}

#[test]
fn character_sets_are_words_or_strings(rt: HostRuntime) {
    for (kind, text, is_one) in &CHARACTER_SETS {
        let lexeme = Lexeme {
            kind: *kind,
            bytes: text.as_bytes(),
        };
        assert_eq!(rt; is_character_set(&lexeme), *is_one, "{text}");
    }
}
