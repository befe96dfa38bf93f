//! The first word of a statement.

ghost use Rattle.std.specs.Prelude.{◌≡◌};
ghost use Rattle.rws_token.specs.Lexeme.{lexeme_of};
ghost use Rattle.rws_class.specs.Classes.{first_word_named, first_word_of};

use rws_token::{Lexeme, TokenKind};
use rws_words::is_among;

/// What the first word says of the rules for a statement.
#[derive(Clone, Copy)]
pub(crate) enum FirstWord {
    Query,
    Show,
    Change,
    Insert,
    Define,
    Create,
    /// A statement of a fixed form.
    Fixed,
    Set,
    Unknown,
}

fn first_word_named(word: &[u8]) -> FirstWord
    ensures { result ≡ first_word_named word.now }
{
    if is_among(&[b"SELECT", b"WITH"], word) {
        return FirstWord::Query;
    }
    if is_among(&[b"SHOW", b"DESCRIBE", b"DESC", b"EXPLAIN", b"HELP"], word) {
        return FirstWord::Show;
    }
    if is_among(&[b"UPDATE", b"DELETE"], word) {
        return FirstWord::Change;
    }
    if is_among(&[b"INSERT", b"REPLACE"], word) {
        return FirstWord::Insert;
    }
    if is_among(&[b"CREATE"], word) {
        return FirstWord::Create;
    }
    if is_among(
        &[
            b"ALTER",
            b"DROP",
            b"TRUNCATE",
            b"RENAME",
            b"GRANT",
            b"REVOKE",
        ],
        word,
    ) {
        return FirstWord::Define;
    }
    if is_among(
        &[
            b"BEGIN",
            b"START",
            b"COMMIT",
            b"ROLLBACK",
            b"SAVEPOINT",
            b"RELEASE",
            b"USE",
        ],
        word,
    ) {
        return FirstWord::Fixed;
    }
    if is_among(&[b"SET"], word) {
        return FirstWord::Set;
    }
    FirstWord::Unknown
}

pub(crate) fn first_word_of(lexeme: &Lexeme<'_>) -> FirstWord
    ensures { result ≡ first_word_of (lexeme_of lexeme.now) }
{
    match lexeme.kind {
        TokenKind::Word => first_word_named(lexeme.bytes),
        _ => FirstWord::Unknown,
    }
}
