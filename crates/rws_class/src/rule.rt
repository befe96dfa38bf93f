//! What the rules on a statement ask of each token.

ghost use Rattle.std.specs.Prelude.{◌≡◌, [], ◌∷◌, codes};
ghost use Rattle.rws_token.specs.Lexeme.{lexeme_of};
ghost use Rattle.rws_words.specs.Words.{is_one_of, words};
ghost use Rattle.rws_words.specs.Places.{is_next, is_named};
ghost use Rattle.rws_words.specs.Windows.{place};
ghost use Rattle.rws_class.specs.Rules.{reaches_out, is_sequence, is_no_query, locks_rows, is_of_server, asks_connection, needs_primary, is_assign, ends_columns, is_no_ddl, is_source};

use rws_token::{Lexeme, TokenKind, is_kind, is_word, unquoted};
use rws_words::{Window, is_among, is_next_symbol, is_next_word};

pub(crate) fn is_assign(window: &Window<'_>) -> bool
    ensures { result ≡ is_assign (place window.now) }
{
    is_kind(&window.this, TokenKind::Assign)
}

/// Whether it sets a variable, or calls what isn't known.
pub(crate) fn reaches_out(window: &Window<'_>) -> bool
    ensures { result ≡ reaches_out (place window.now) }
{
    is_assign(window) || window.is_foreign_call()
}

/// The next or the last value of a sequence.
fn is_sequence(window: &Window<'_>) -> bool
    ensures { result ≡ is_sequence (place window.now) }
{
    (is_word(&window.this, b"NEXT") || is_word(&window.this, b"PREVIOUS"))
        && is_next_word(window, b"VALUE")
}

/// Whether a SELECT with this is more than a query.
pub(crate) fn is_no_query(window: &Window<'_>) -> bool
    ensures { result ≡ is_no_query (place window.now) }
{
    reaches_out(window)
        || is_word(&window.this, b"INTO")
        || is_word(&window.this, b"PROCEDURE")
        || is_sequence(window)
}

fn is_for_change(window: &Window<'_>) -> bool
    ensures { result ≡ is_next (is_one_of (words (codes "UPDATE SHARE"))) (place window.now) }
{
    is_next_word(window, b"UPDATE") || is_next_word(window, b"SHARE")
}

pub(crate) fn locks_rows(window: &Window<'_>) -> bool
    ensures { result ≡ locks_rows (place window.now) }
{
    is_word(&window.this, b"FOR") && is_for_change(window)
        || is_word(&window.this, b"LOCK") && is_next_word(window, b"IN")
}

/// Whether it is one of two names, as a word or in quotes.
fn is_named(lexeme: &Lexeme<'_>, one: &[u8], other: &[u8]) -> bool
    ensures { result ≡ is_named (one.now ∷ other.now ∷ []) (lexeme_of lexeme.now) }
{
    match lexeme.kind {
        TokenKind::Word => is_among(&[one, other], lexeme.bytes),
        TokenKind::Quoted => is_among(&[one, other], unquoted(lexeme.bytes)),
        _ => false,
    }
}

/// Whether it is of the tables that say what a server itself does or holds.
fn is_of_server(window: &Window<'_>) -> bool
    ensures { result ≡ is_of_server (place window.now) }
{
    is_named(&window.this, b"INFORMATION_SCHEMA", b"PERFORMANCE_SCHEMA")
        || is_named(&window.this, b"MYSQL", b"SYS") && is_next_symbol(window, b'.')
}

/// Whether a query asks for what may differ from server to server.
pub(crate) fn needs_primary(window: &Window<'_>) -> bool
    ensures { result ≡ needs_primary (place window.now) }
{
    asks_connection(window) || is_of_server(window)
}

/// Whether it asks a connection or its server of itself, which may differ from server to server.
fn asks_connection(window: &Window<'_>) -> bool
    ensures { result ≡ asks_connection (place window.now) }
{
    is_kind(&window.this, TokenKind::SysVar)
        || window.is_primary_call()
        || is_word(&window.this, b"SQL_CALC_FOUND_ROWS")
}

/// Whether the list of columns of an INSERT or REPLACE can't come any more.
pub(crate) fn ends_columns(window: &Window<'_>) -> bool
    ensures { result ≡ ends_columns (place window.now) }
{
    let this = &window.this;
    is_word(this, b"SET")
        || is_word(this, b"SELECT")
        || is_word(this, b"VALUES")
        || is_word(this, b"VALUE")
}

/// Whether a statement on definitions is more than that.
pub(crate) fn is_no_ddl(window: &Window<'_>) -> bool
    ensures { result ≡ is_no_ddl (place window.now) }
{
    is_word(&window.this, b"TEMPORARY") || is_assign(window)
}

/// Whether rows of a CREATE come behind this.
pub(crate) fn is_source(window: &Window<'_>) -> bool
    ensures { result ≡ is_source (place window.now) }
{
    is_word(&window.this, b"SELECT")
        || is_word(&window.this, b"VALUES") && !bounds_partition(window)
}

fn bounds_partition(window: &Window<'_>) -> bool
    ensures { result ≡ is_next (is_one_of (words (codes "LESS IN"))) (place window.now) }
{
    is_next_word(window, b"LESS") || is_next_word(window, b"IN")
}
