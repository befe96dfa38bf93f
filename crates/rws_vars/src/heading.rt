//! Statements that set one thing by a fixed form: USE, SET NAMES, SET CHARACTER SET and SET SESSION TRANSACTION.

ghost use Rattle.std.specs.Prelude.{◌≡◌, IfOk, map};
ghost use Rattle.std.specs.Option.{option_map};
ghost use Rattle.rws_vars.specs.Assignments.{headed, headings, behind_words, statement_of, given};
ghost use Rattle.rws_vars.specs.States.{tokens_left, heading_of};

use crate::draft::Draft;
use crate::setting::Setting;
use crate::statement::Statement;
use rws_token::is_word;
use rws_wire::Text;
use std::alloc::{AllocError, Global};

/// The first words of a statement, and the name of what it sets. The value stands behind the words.
struct Heading {
    words: &'static [&'static [u8]],
    name: &'static [u8],
}

const HEADINGS: [Heading; 5] = [
    Heading {
        words: &[b"USE"],
        name: b"database",
    },
    Heading {
        words: &[b"SET", b"NAMES"],
        name: b"names",
    },
    Heading {
        words: &[b"SET", b"CHARACTER", b"SET"],
        name: b"names",
    },
    Heading {
        words: &[b"SET", b"SESSION", b"TRANSACTION", b"ISOLATION", b"LEVEL"],
        name: b"transaction isolation",
    },
    Heading {
        words: &[b"SET", b"SESSION", b"TRANSACTION"],
        name: b"transaction access",
    },
];

/// What stands behind these words, if the statement begins with them.
fn behind_words<'a>(text: &'a [u8], words: &[&[u8]]) -> Option<Statement<'a>>
    ensures { option_map tokens_left result ≡ behind_words (map (λ word. word.now) words.now) (statement_of text.now) }
{
    let mut statement = Statement::new(text);
    let mut rest = words;
    loop {
        match rest {
            [] => return Some(statement),
            [word, behind @ ..] => match statement.next() {
                Some(lexeme) if is_word(&lexeme, word) => rest = behind,
                _ => return None,
            },
        }
    }
}

/// A setting of this name, whose value is what is left of the statement.
fn given(alloc: Global, name: &[u8], statement: Statement<'_>) -> Result<Setting, AllocError>
    ensures { IfOk result (λ setting. setting ≡ given name.now (tokens_left statement.entry)) }
{
    let mut draft = Draft::new(alloc, Text::from_slice(alloc, name)?);
    let mut statement = statement;
    while let Some(lexeme) = statement.next() {
        draft.push(&lexeme)?;
    }
    Ok(draft.finish())
}

fn headed_by(
    alloc: Global,
    headings: &[Heading],
    text: &[u8],
) -> Result<Option<Setting>, AllocError>
    ensures { IfOk result (λ setting. setting ≡ headed (map heading_of headings.now) (statement_of text.now)) }
{
    let mut rest = headings;
    loop {
        match rest {
            [] => return Ok(None),
            [heading, behind @ ..] => match behind_words(text, heading.words) {
                Some(statement) => return Ok(Some(given(alloc, heading.name, statement)?)),
                None => rest = behind,
            },
        }
    }
}

/// What a statement of a fixed form sets, None for every other statement.
pub(crate) fn headed(alloc: Global, text: &[u8]) -> Result<Option<Setting>, AllocError>
    ensures { IfOk result (λ setting. setting ≡ headed headings (statement_of text.now)) }
{
    headed_by(alloc, &HEADINGS, text)
}
