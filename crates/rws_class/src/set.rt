//! A reader of SET: whether it touches what isn't to be touched, and what its items do.

ghost use Rattle.std.specs.Prelude.{◌≡◌, ◌+◌, ◌^◌, ◌<◌, ◌≤◌, ◌∷◌, [], List};
ghost use Rattle.rws_words.specs.Places.{Place, tokens_of};
ghost use Rattle.rws_words.specs.Windows.{place};
ghost use Rattle.rws_class.specs.Classes.{is_refused, effect_class, or_else, set_class};
ghost use Rattle.rws_class.specs.Forms.{form_class, forms};
ghost use Rattle.rws_class.specs.declared.class.Class.{Class};

use crate::class::Class;
use rws_set::{Effect, Items, last_part};
use rws_token::{TokenKind, unquoted};
use rws_words::{Window, is_refused_name};

/// Whether it is a variable that isn't to be touched.
fn is_refused(window: &Window<'_>) -> bool
    ensures { result ≡ is_refused (place window.now) }
{
    match window.this.kind {
        TokenKind::Word => is_refused_name(window.this.bytes),
        TokenKind::Quoted => is_refused_name(unquoted(window.this.bytes)),
        TokenKind::SysVar => is_refused_name(last_part(window.this.bytes)),
        _ => false,
    }
}

fn effect_class(effect: Effect) -> Class
    ensures { result ≡ effect_class effect }
{
    match effect {
        Effect::Wrong => Class::Other,
        Effect::Plain => Class::Session,
        Effect::On => Class::AutocommitOn,
        Effect::Off => Class::AutocommitOff,
    }
}

fn or_else(found: Class, class: Class) -> Class
    ensures { result ≡ or_else found class }
{
    match found {
        Class::Other => class,
        found => found,
    }
}

/// A SET, of which some tokens were read.
#[derive(Clone, Copy)]
pub(crate) struct SetReader<'a> {
    pub(crate) refused: bool,
    pub(crate) items: Items<'a>,
}

impl<'a> SetReader<'a> {
    ghost use Rattle.rws_class.specs.States.{set_left};

    /// Begins with the word SET itself.
    pub(crate) fn begin(window: &Window<'a>) -> SetReader<'a>
        ensures left { (ps : List Place) → set_left result (form_class forms (tokens_of (place window.now ∷ ps))) ps ≡ set_class (place window.now ∷ ps) }
        ensures depth { result.items.walk.depth ≡ 0 }
    {
        SetReader {
            refused: is_refused(window),
            items: Items::new(),
        }
    }

    /// Goes on with one more token.
    pub(crate) fn read(&mut self, window: &Window<'a>)
        requires { self.old.items.walk.depth + 1 < 2 ^ 64 }
        ensures left { (form : Class) (ps : List Place) → set_left self.new form ps ≡ set_left self.old form (place window.now ∷ ps) }
        ensures depth { self.new.items.walk.depth ≤ self.old.items.walk.depth + 1 }
    {
        self.refused |= is_refused(window);
        self.items.read(window);
    }

    /// The class of a SET that has the fixed form of this class, or none.
    pub(crate) fn class(&self, form: Class) -> Class
        ensures { result ≡ set_left self.now form [] }
    {
        if self.refused {
            Class::Refused
        } else {
            or_else(form, effect_class(self.items.effect()))
        }
    }
}
