//! Statements of a fixed form.

ghost use Rattle.std.specs.Prelude.{◌≡◌, map};
ghost use Rattle.rws_token.specs.Lexeme.{lexeme_of};
ghost use Rattle.rws_class.specs.Forms.{fits, reads, form_class, forms};
ghost use Rattle.rws_class.specs.Views.{part_of, forms_of};

use crate::class::Class;
use crate::form::Part::{AnyWord, CharacterSet, Name, Text, The};
use rws_set::is_character_set;
use rws_token::{Lexeme, TokenKind, is_kind, is_word};
use rws_words::is_name;

/// What may stand at one place of a form.
#[derive(Clone, Copy)]
pub(crate) enum Part {
    The(&'static [u8]),
    Name,
    AnyWord,
    CharacterSet,
    /// A word or a string.
    Text,
}

fn fits(part: &Part, lexeme: &Lexeme<'_>) -> bool
    ensures { result ≡ fits (part_of part.now) (lexeme_of lexeme.now) }
{
    match part {
        Part::The(text) => is_word(lexeme, text),
        Part::Name => is_name(lexeme),
        Part::AnyWord => is_kind(lexeme, TokenKind::Word),
        Part::CharacterSet => is_character_set(lexeme),
        Part::Text => is_kind(lexeme, TokenKind::Word) || is_kind(lexeme, TokenKind::Str),
    }
}

/// Whether the tokens are these parts, one for one.
fn reads(parts: &[Part], lexemes: &[Lexeme<'_>]) -> bool
    ensures { result ≡ reads (map part_of parts.now) (map lexeme_of lexemes.now) }
{
    match parts {
        [] => lexemes.is_empty(),
        [part, parts @ ..] => match lexemes {
            [] => false,
            [lexeme, lexemes @ ..] => fits(part, lexeme) && reads(parts, lexemes),
        },
    }
}

/// A form, and the class of the statements that have it.
struct Form {
    parts: &'static [Part],
    class: Class,
}

const FORMS: [Form; 24] = [
    Form {
        parts: &[The(b"BEGIN")],
        class: Class::Begin,
    },
    Form {
        parts: &[The(b"BEGIN"), The(b"WORK")],
        class: Class::Begin,
    },
    Form {
        parts: &[The(b"START"), The(b"TRANSACTION")],
        class: Class::Begin,
    },
    Form {
        parts: &[
            The(b"START"),
            The(b"TRANSACTION"),
            The(b"READ"),
            The(b"WRITE"),
        ],
        class: Class::Begin,
    },
    Form {
        parts: &[
            The(b"START"),
            The(b"TRANSACTION"),
            The(b"WITH"),
            The(b"CONSISTENT"),
            The(b"SNAPSHOT"),
        ],
        class: Class::Begin,
    },
    Form {
        parts: &[
            The(b"START"),
            The(b"TRANSACTION"),
            The(b"READ"),
            The(b"ONLY"),
        ],
        class: Class::BeginReadOnly,
    },
    Form {
        parts: &[The(b"COMMIT")],
        class: Class::Commit,
    },
    Form {
        parts: &[The(b"COMMIT"), The(b"WORK")],
        class: Class::Commit,
    },
    Form {
        parts: &[The(b"ROLLBACK")],
        class: Class::Rollback,
    },
    Form {
        parts: &[The(b"ROLLBACK"), The(b"WORK")],
        class: Class::Rollback,
    },
    Form {
        parts: &[The(b"ROLLBACK"), The(b"TO"), Name],
        class: Class::TrxLocal,
    },
    Form {
        parts: &[The(b"ROLLBACK"), The(b"TO"), The(b"SAVEPOINT"), Name],
        class: Class::TrxLocal,
    },
    Form {
        parts: &[The(b"ROLLBACK"), The(b"WORK"), The(b"TO"), Name],
        class: Class::TrxLocal,
    },
    Form {
        parts: &[
            The(b"ROLLBACK"),
            The(b"WORK"),
            The(b"TO"),
            The(b"SAVEPOINT"),
            Name,
        ],
        class: Class::TrxLocal,
    },
    Form {
        parts: &[The(b"SAVEPOINT"), Name],
        class: Class::TrxLocal,
    },
    Form {
        parts: &[The(b"RELEASE"), The(b"SAVEPOINT"), Name],
        class: Class::TrxLocal,
    },
    Form {
        parts: &[The(b"USE"), Name],
        class: Class::Session,
    },
    Form {
        parts: &[The(b"SET"), The(b"NAMES"), CharacterSet],
        class: Class::Session,
    },
    Form {
        parts: &[
            The(b"SET"),
            The(b"NAMES"),
            CharacterSet,
            The(b"COLLATE"),
            Text,
        ],
        class: Class::Session,
    },
    Form {
        parts: &[The(b"SET"), The(b"CHARACTER"), The(b"SET"), CharacterSet],
        class: Class::Session,
    },
    Form {
        parts: &[
            The(b"SET"),
            The(b"SESSION"),
            The(b"TRANSACTION"),
            The(b"ISOLATION"),
            The(b"LEVEL"),
            AnyWord,
        ],
        class: Class::Session,
    },
    Form {
        parts: &[
            The(b"SET"),
            The(b"SESSION"),
            The(b"TRANSACTION"),
            The(b"ISOLATION"),
            The(b"LEVEL"),
            AnyWord,
            AnyWord,
        ],
        class: Class::Session,
    },
    Form {
        parts: &[
            The(b"SET"),
            The(b"SESSION"),
            The(b"TRANSACTION"),
            The(b"READ"),
            The(b"ONLY"),
        ],
        class: Class::Session,
    },
    Form {
        parts: &[
            The(b"SET"),
            The(b"SESSION"),
            The(b"TRANSACTION"),
            The(b"READ"),
            The(b"WRITE"),
        ],
        class: Class::Session,
    },
];

/// The class of the first form that the tokens have.
fn form_class(forms: &[Form], lexemes: &[Lexeme<'_>]) -> Class
    ensures { result ≡ form_class (forms_of forms.now) (map lexeme_of lexemes.now) }
{
    let mut rest = forms;
    loop {
        match rest {
            [form, ..] if reads(form.parts, lexemes) => return form.class,
            [_, behind @ ..] => rest = behind,
            [] => return Class::Other,
        }
    }
}

/// The class of a statement of fixed form.
pub(crate) fn fixed_class(lexemes: &[Lexeme<'_>]) -> Class
    ensures { result ≡ form_class forms (map lexeme_of lexemes.now) }
{
    form_class(&FORMS, lexemes)
}
