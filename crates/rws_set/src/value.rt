//! A reader of the value that an item of SET gives its variable. No token is kept.

ghost use Rattle.std.specs.Prelude.{◌≡◌, ◌∷◌, [], List};
ghost use Rattle.rws_token.specs.Lexeme as tokens;
ghost use Rattle.rws_token.specs.Lexeme.{lexeme_of};
ghost use Rattle.rws_words.specs.Places.{Place};
ghost use Rattle.rws_words.specs.Windows.{place};
ghost use Rattle.rws_set.specs.Values.{character_set, mode_word, mode_effect, value_effect, form_effect};

use crate::effect::Effect;
use crate::mode::{Search, holds_mode};
use crate::target::Variable;
use crate::token::{is_beyond_session, is_character_set, is_mode_part, switch};
use rws_token::{Lexeme, TokenKind, is_kind, same_word, unquoted};
use rws_words::Window;

/// What was read of a value, as far as what its variable takes needs it.
#[derive(Clone, Copy)]
pub(crate) enum Form {
    /// Nothing yet.
    Empty(Variable),
    /// A value that may go on with anything.
    Free,
    /// A value that is whole, or none.
    Whole(Effect),
    /// An SQL mode that is CONCAT so far.
    Concat(Effect),
    /// An SQL mode that is put together.
    Mode(Search),
}

fn mode_word(name: &[u8]) -> Effect
    ensures { result ≡ mode_word name.now }
{
    if holds_mode(name) {
        Effect::Wrong
    } else {
        Effect::Plain
    }
}

fn character_set(lexeme: &Lexeme<'_>) -> Effect
    ensures { result ≡ character_set (lexeme_of lexeme.now) }
{
    if is_character_set(lexeme) {
        Effect::Plain
    } else {
        Effect::Wrong
    }
}

impl Form {
    ghost use Rattle.rws_set.specs.States.{form_left, parts_left};

    /// Goes on with one more part of an SQL mode.
    fn mode_behind(search: Search, lexeme: &Lexeme<'_>) -> Form
        ensures { (ts : List tokens.Lexeme) → form_left result ts ≡ parts_left search (lexeme_of lexeme.now ∷ ts) }
    {
        if !is_mode_part(lexeme) {
            return Form::Whole(Effect::Wrong);
        }
        let mut search = search;
        if is_kind(lexeme, TokenKind::Str) {
            search.read(unquoted(lexeme.bytes));
        }
        Form::Mode(search)
    }

    /// The first token of an SQL mode.
    fn mode(lexeme: &Lexeme<'_>) -> Form
        ensures { (ts : List tokens.Lexeme) → form_left result ts ≡ mode_effect (lexeme_of lexeme.now) ts }
    {
        match lexeme.kind {
            TokenKind::Word if same_word(lexeme.bytes, b"CONCAT") => {
                Form::Concat(mode_word(lexeme.bytes))
            }
            TokenKind::Word => Form::Whole(mode_word(lexeme.bytes)),
            _ => Form::mode_behind(Search::new(), lexeme),
        }
    }

    /// The first token of a value.
    fn first(variable: Variable, lexeme: &Lexeme<'_>) -> Form
        ensures { (ts : List tokens.Lexeme) → form_left result ts ≡ form_effect variable (lexeme_of lexeme.now ∷ ts) }
    {
        match variable {
            Variable::Plain => Form::Free,
            Variable::Autocommit => Form::Whole(switch(lexeme)),
            Variable::SqlMode => Form::mode(lexeme),
            Variable::CharacterSet => Form::Whole(character_set(lexeme)),
        }
    }

    /// The value with one more token.
    fn behind(self, lexeme: &Lexeme<'_>) -> Form
        ensures { (ts : List tokens.Lexeme) → form_left result ts ≡ form_left self (lexeme_of lexeme.now ∷ ts) }
    {
        match self {
            Form::Empty(variable) => Form::first(variable, lexeme),
            Form::Free => Form::Free,
            Form::Whole(_) => Form::Whole(Effect::Wrong),
            Form::Concat(_) => Form::mode_behind(Search::new(), lexeme),
            Form::Mode(search) => Form::mode_behind(search, lexeme),
        }
    }

    /// What giving the value does if it ends here.
    fn effect(&self) -> Effect
        ensures { result ≡ form_left self.now [] }
    {
        match self {
            Form::Empty(_) => Effect::Wrong,
            Form::Free => Effect::Plain,
            Form::Whole(effect) | Form::Concat(effect) => *effect,
            Form::Mode(search) if search.has_found() => Effect::Wrong,
            Form::Mode(_) => Effect::Plain,
        }
    }
}

/// A value of which some tokens were read.
#[derive(Clone, Copy)]
pub(crate) struct Value {
    /// Whether a token was read that no value may hold.
    beyond_session: bool,
    form: Form,
}

impl Value {
    ghost use Rattle.rws_set.specs.States.{value_left};

    /// A value of this variable. Nothing is read yet.
    pub(crate) fn of(variable: Variable) -> Value
        ensures { (ps : List Place) → value_left result ps ≡ value_effect variable ps }
    {
        Value {
            beyond_session: false,
            form: Form::Empty(variable),
        }
    }

    /// Goes on with one more token.
    pub(crate) fn read(&mut self, window: &Window<'_>)
        ensures { (ps : List Place) → value_left self.new ps ≡ value_left self.old (place window.now ∷ ps) }
    {
        self.beyond_session |= is_beyond_session(window);
        self.form = self.form.behind(&window.this);
    }

    /// What giving the value does if it ends here.
    pub(crate) fn effect(&self) -> Effect
        ensures { result ≡ value_left self.now [] }
    {
        if self.beyond_session {
            Effect::Wrong
        } else {
            self.form.effect()
        }
    }
}
