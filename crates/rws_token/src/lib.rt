//! Cuts a statement's text into tokens, after MariaDB's lexical structure, without memory: each byte of a text belongs
//! to one token or stands between two, and a text has one list of tokens or one fault. Where it differs from a server's
//! own scan, `docs/DECISIONS.md` says so.
#![tactic(auto)]

mod byte;
mod end;
mod law;
mod lexeme;
mod lexemes;
mod piece;
mod token;
mod tokens;

pub use law::{comments_end_by_grammar, enclosed_ends_by_grammar, faults_lie_behind, spans_rise};
pub use lexeme::{Lexeme, is_kind, is_symbol, is_word, same_word, unquoted};
pub use lexemes::Lexemes;
pub use token::{Token, TokenKind, Unclosed};
pub use tokens::Tokens;

#[cfg(test)]
mod tests;
