//! What a text is cut into: kinds, and places in the text.

/// The kinds of tokens.
#[derive(Clone, Copy, Debug, PartialEq, Eq)]
pub enum TokenKind {
    /// Letters, digits, `_`, `$` and bytes from 0x80 up, not beginning with a digit.
    Word,
    /// A digit, or a dot and a digit, and then letters, digits, `_` and dots.
    Number,
    /// A text in `'` or `"`; a doubled quote, or a backslash with any byte, stays inside.
    Str,
    /// A name in backquotes; a doubled backquote stays inside.
    Quoted,
    /// `@` with a word that may hold dots, a string or a quoted name.
    UserVar,
    /// `@@` with words joined by dots.
    SysVar,
    /// `:=`.
    Assign,
    /// Any other single byte.
    Symbol,
    /// A comment that a server executes, one that begins `/*!` or `/*M!`.
    Exec,
}

/// A token: its kind, and its bytes' places in the text, from `start` up to `end`, which isn't included.
#[derive(Clone, Copy, Debug, PartialEq, Eq)]
pub struct Token {
    pub kind: TokenKind,
    pub start: usize,
    pub end: usize,
}

/// The place where something began that doesn't end: a string, a quoted name, a comment, a user
/// variable, or an `@@` that no word follows.
#[derive(Clone, Copy, Debug, PartialEq, Eq)]
pub struct Unclosed {
    pub at: usize,
}
