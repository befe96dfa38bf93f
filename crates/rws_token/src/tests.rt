//! Texts and the kinds of their tokens, and places where a text doesn't end what it began.

use crate::{TokenKind, Tokens, Unclosed};

/// A text, and a letter for each of its tokens.
const KINDS: [(&str, &str); 22] = [
    ("", ""),
    (" \t\n\u{b}\u{c}\r", ""),
    ("select a_1,$b from caf\u{e9}", "wwywww"),
    ("1 1.5 .5 1. 1e5 1.e+3 0x1F 1_000.2.3", "nnnnnnynnn"),
    ("1a.b a.1 a.b", "nwnwyw"),
    ("'it''s' 'a\\'b' \"a\"\"b\" 'a' 'b'", "sssss"),
    ("'a\\\\'b", "sw"),
    ("`a``b` `a\\` `'`", "qqq"),
    ("@a @a.b.1 @'x y' @\"q\" @`z`", "uuuuu"),
    ("@ @1 @.a", "yynyyw"),
    ("@@a @@global.b @@a.1 @@a. b @@a..b", "vvvnvywvyyw"),
    (":= : = :=", "ayya"),
    ("/* a /* b */ c", "w"),
    ("/**/a/***/b/*/*/c", "www"),
    ("/*!1 a*/ /*M! b*/ /*m! c*/ /*!*/", "eee"),
    ("a -- b\nc --d", "wwyyw"),
    ("a --", "w"),
    ("a --\u{7f}b", "w"),
    ("a # b\r c\nd #", "ww"),
    ("- / ; ( ) . ..5", "yyyyyyyn"),
    ("?!%", "yyy"),
    ("a/b-c", "wywyw"),
];

/// Texts, and the place of what they don't end.
const UNCLOSED: [(&str, usize); 12] = [
    ("a 'b", 2),
    ("'a\\'", 0),
    ("'a''", 0),
    ("\"a'", 0),
    ("`a", 0),
    ("`a``", 0),
    ("a /* b *", 2),
    ("/*/", 0),
    ("a /*! b", 2),
    ("@'a", 0),
    ("a @@", 2),
    ("@@1", 0),
];

fn letter(kind: TokenKind) -> u8 {
    match kind {
        TokenKind::Word => b'w',
        TokenKind::Number => b'n',
        TokenKind::Str => b's',
        TokenKind::Quoted => b'q',
        TokenKind::UserVar => b'u',
        TokenKind::SysVar => b'v',
        TokenKind::Assign => b'a',
        TokenKind::Symbol => b'y',
        TokenKind::Exec => b'e',
    }
}

#[test]
fn each_text_has_its_tokens(rt: HostRuntime) {
    for (text, kinds) in &KINDS {
        let mut tokens = Tokens::new(text.as_bytes());
        for kind in kinds.as_bytes() {
            match tokens.next() {
                Ok(Some(token)) => assert_eq!(rt; letter(token.kind), *kind, "{text}"),
                Ok(None) => assert!(rt; false, "{text}"),
                Err(_) => assert!(rt; false, "{text}"),
            }
        }
        assert_eq!(rt; tokens.next(), Ok(None), "{text}");
    }
}

#[test]
fn what_does_not_end_is_told_at_its_place(rt: HostRuntime) {
    for (text, at) in &UNCLOSED {
        let mut tokens = Tokens::new(text.as_bytes());
        for _ in 0..text.len() {
            if tokens.next() == Err(Unclosed { at: *at }) {
                break;
            }
        }
        assert_eq!(rt; tokens.next(), Err(Unclosed { at: *at }), "{text}");
    }
}
