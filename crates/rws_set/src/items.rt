//! A reader of the items of a SET, which knows what they do. No token is kept.

ghost use Rattle.std.specs.Prelude.{◌≡◌, ◌+◌, ◌^◌, ◌<◌, ◌≤◌, ◌∷◌, [], List};
ghost use Rattle.rws_words.specs.Places.{Place};
ghost use Rattle.rws_words.specs.Windows.{place};
ghost use Rattle.rws_set.specs.Items.{items_effect};
ghost use Rattle.rws_set.specs.Walks.{step_left};
ghost use Rattle.rws_set.specs.States.{step_effect, items_left};

use crate::effect::{Effect, joined};
use crate::target::Variable;
use crate::value::Value;
use crate::walk::{Part, Step, Walk};
use rws_words::Window;

/// The items of a SET, read token by token.
#[derive(Clone, Copy)]
pub struct Items<'a> {
    walk: Walk<'a>,
    /// What the items before the present one do.
    before: Effect,
    /// The present item's value, once it has begun.
    value: Value,
}

impl<'a> Items<'a> {
    /// The items of no tokens: none is read yet.
    pub fn new() -> Items<'a>
        ensures left { (ps : List Place) → items_left result ps ≡ items_effect ps }
        ensures depth { result.walk.depth ≡ 0 }
    {
        Items {
            walk: Walk::new(),
            before: Effect::Plain,
            value: Value::of(Variable::Plain),
        }
    }

    /// Goes on with one more token, which opens one parenthesis at most.
    pub fn read(&mut self, window: &Window<'a>)
        requires { self.old.walk.depth + 1 < 2 ^ 64 }
        ensures left { (ps : List Place) → items_left self.new ps ≡ items_left self.old (place window.now ∷ ps) }
        ensures depth { self.new.walk.depth ≤ self.old.walk.depth + 1 }
    {
        let item = self.item_effect();
        match self.walk.read(window) {
            Part::Comma => self.before = joined(self.before, item),
            Part::Equals(target) => self.value = Value::of(target.variable),
            Part::Value => self.value.read(window),
            Part::Front => {}
        }
    }

    /// What the present item does if it ends here.
    fn item_effect(&self) -> Effect
        ensures { result ≡ step_effect self.now.walk.step self.now.value (step_left self.now.walk.step []) }
    {
        match self.walk.step {
            Step::Valued(_) => self.value.effect(),
            _ => Effect::Wrong,
        }
    }

    /// What the items do if they end here.
    pub fn effect(&self) -> Effect
        ensures { result ≡ items_left self.now [] }
    {
        joined(self.before, self.item_effect())
    }
}
