//! Words with a parenthesis behind them, and words with the lists that they are on.

use crate::{Window, is_character_set_name, is_refused_name, is_setting};
use rws_token::{Lexeme, TokenKind};

/// A word behind a dot or not, and whether it is a call that the primary's connection answers, or one of which it
/// isn't known what it does.
const CALLS: [(bool, &str, [bool; 2]); 7] = [
    (false, "Between", [false, false]),
    (false, "count", [false, false]),
    (false, "LAST_INSERT_ID", [true, false]),
    (false, "sleep", [false, true]),
    (true, "between", [false, true]),
    (true, "count", [false, true]),
    (true, "version", [false, true]),
];

/// A word, and whether it is a variable that may be set, a character set, a refused variable.
const WORDS: [(&str, [bool; 3]); 5] = [
    ("Sql_Mode", [true, false, false]),
    ("utf8mb4", [false, true, false]),
    ("session_track_system_variables", [false, false, true]),
    ("gbk", [false, false, false]),
    ("", [false, false, false]),
];

fn calls_of(after_dot: bool, word: &[u8]) -> [bool; 2] {
    let this = Lexeme {
        kind: TokenKind::Word,
        bytes: word,
    };
    let next = Lexeme {
        kind: TokenKind::Symbol,
        bytes: b"(",
    };
    let window = Window::new(after_dot, &this, &Some(next));
    [window.is_primary_call(), window.is_foreign_call()]
}

#[test]
fn words_that_a_parenthesis_follows(rt: HostRuntime) {
    for (after_dot, word, calls) in &CALLS {
        assert_eq!(rt; calls_of(*after_dot, word.as_bytes()), *calls, "{word}");
    }
}

fn lists_of(word: &[u8]) -> [bool; 3] {
    [
        is_setting(word),
        is_character_set_name(word),
        is_refused_name(word),
    ]
}

#[test]
fn words_are_on_their_lists(rt: HostRuntime) {
    for (word, lists) in &WORDS {
        assert_eq!(rt; lists_of(word.as_bytes()), *lists, "{word}");
    }
}
