//! A walk over the items of a SET, which tells of each token which part of a list it is.

ghost use Rattle.std.specs.Prelude.{◌≡◌, ◌+◌, ◌^◌, ◌<◌, ◌≤◌, ◌∷◌, [], List, false};
ghost use Rattle.std.specs.Option.{option_map};
ghost use Rattle.rws_token.specs.Lexeme.{lexeme_of};
ghost use Rattle.rws_words.specs.Places.{Place};
ghost use Rattle.rws_set.specs.Items.{depth_behind, parts_item, item_of, assigned, items_of};
ghost use Rattle.rws_words.specs.Windows.{place};
ghost use Rattle.rws_set.specs.Views.{target_of};
ghost use Rattle.rws_set.specs.Walks.{step_left, part_of, StepReads, is_valued, walk_left, WalkReads};

use crate::target::{Target, any_target, is_equals, is_scope, word_target};
use rws_token::{Lexeme, is_symbol};
use rws_words::Window;

/// What was read of an item.
#[derive(Clone, Copy)]
pub(crate) enum Step<'a> {
    Start,
    /// SESSION or LOCAL.
    Scoped,
    /// A variable, for which `=` is due.
    Named(Target<'a>),
    /// A variable and `=`, and maybe a part of its value.
    Valued(Target<'a>),
    /// What no item begins with.
    Broken,
}

/// Which part of a list a token is.
#[derive(Clone, Copy)]
pub enum Part<'a> {
    /// The comma between two items.
    Comma,
    /// The `=` or `:=` behind this target.
    Equals(Target<'a>),
    /// A token of an item's value.
    Value,
    /// Anything else: a token in front of a value, or of what is no item.
    Front,
}

fn named<'a>(target: &Option<Target<'a>>) -> Step<'a>
    ensures front { is_valued result ≡ false }
    ensures left { (ps : List Place) → step_left result ps ≡ assigned (option_map target_of target.now) ps }
{
    match target {
        Some(target) => Step::Named(*target),
        None => Step::Broken,
    }
}

impl<'a> Step<'a> {
    /// Goes on with one more token of the same item.
    fn behind(&self, window: &Window<'a>) -> Step<'a>
        ensures { StepReads self.now (part_of self.now (place window.now).this) (place window.now) result }
    {
        let this = &window.this;
        match self {
            Step::Start if is_scope(this) => Step::Scoped,
            Step::Start => named(&any_target(this)),
            Step::Scoped => named(&word_target(this)),
            Step::Named(target) if is_equals(this) => Step::Valued(*target),
            Step::Valued(target) => Step::Valued(*target),
            Step::Named(_) | Step::Broken => Step::Broken,
        }
    }

    /// Which part of an item the next token is.
    fn part(&self, lexeme: &Lexeme<'_>) -> Part<'a>
        ensures { result ≡ part_of self.now (lexeme_of lexeme.now) }
    {
        match self {
            Step::Named(target) if is_equals(lexeme) => Part::Equals(*target),
            Step::Valued(_) => Part::Value,
            _ => Part::Front,
        }
    }
}

/// The depth of parentheses behind a token.
fn depth_behind(depth: usize, lexeme: &Lexeme<'_>) -> usize
    requires { depth + 1 < 2 ^ 64 }
    ensures { result ≡ depth_behind depth (lexeme_of lexeme.now) }
{
    if is_symbol(lexeme, b'(') {
        depth + 1
    } else if is_symbol(lexeme, b')') {
        depth.saturating_sub(1)
    } else {
        depth
    }
}

/// Whether a comma parts two items here.
fn parts_item(depth: usize, lexeme: &Lexeme<'_>) -> bool
    ensures { result ≡ parts_item depth (lexeme_of lexeme.now) }
{
    depth == 0 && is_symbol(lexeme, b',')
}

/// A walk over a list of items, token by token. No token is kept but the present item's target.
#[derive(Clone, Copy)]
pub struct Walk<'a> {
    pub(crate) step: Step<'a>,
    /// How many parentheses are open.
    pub(crate) depth: usize,
}

impl<'a> Walk<'a> {
    /// A walk over a list of items, of which no token is read yet.
    pub fn new() -> Walk<'a>
        ensures left { (ps : List Place) → walk_left result ps ≡ items_of ps }
        ensures front { is_valued result.step ≡ false }
        ensures depth { result.depth ≡ 0 }
    {
        Walk {
            step: Step::Start,
            depth: 0,
        }
    }

    /// Goes on with one more token, which opens one parenthesis at most, and says which part of the list it is.
    pub fn read(&mut self, window: &Window<'a>) -> Part<'a>
        requires { self.old.depth + 1 < 2 ^ 64 }
        ensures reads { WalkReads self.old result (place window.now) self.new }
        ensures depth { self.new.depth ≤ self.old.depth + 1 }
    {
        let this = &window.this;
        if parts_item(self.depth, this) {
            self.step = Step::Start;
            return Part::Comma;
        }
        let part = self.step.part(this);
        self.step = self.step.behind(window);
        self.depth = depth_behind(self.depth, this);
        part
    }
}
