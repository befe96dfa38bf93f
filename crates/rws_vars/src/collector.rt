//! Collects what the items of a SET set.

ghost use Rattle.std.specs.Prelude.{◌≡◌, ◌+◌, ◌^◌, ◌<◌, ◌≤◌, ◌∷◌, [], List, IfOk, OnOk, is_some};
ghost use Rattle.rws_token.specs.Lexeme.{lexeme_of};
ghost use Rattle.rws_words.specs.Places.{Place};
ghost use Rattle.rws_set.specs.Targets.{lower};
ghost use Rattle.rws_set.specs.Items.{items_of};
ghost use Rattle.rws_set.specs.Walks.{is_valued};
ghost use Rattle.rws_vars.specs.Assignments.{alone, items_settings};
ghost use Rattle.rws_vars.specs.States.{collected_left, ItemEnds, ValueBegins, ValueGoesOn};

use crate::draft::Draft;
use crate::setting_list::SettingList;
use rws_set::{Part, Walk};
use rws_token::Lexeme;
use rws_wire::Text;
use rws_words::Window;
use std::alloc::{AllocError, Global};

/// A copy of the name in lower case.
fn lower(alloc: Global, name: &[u8]) -> Result<Text, AllocError>
    ensures { IfOk result (λ text. text ≡ lower name.now) }
{
    let mut text = Text::empty(alloc);
    let mut rest = name;
    while let [byte, behind @ ..] = rest {
        text.push(byte.to_ascii_lowercase())?;
        rest = behind;
    }
    Ok(text)
}

/// The items of a SET, read token by token.
#[derive(Drop)]
pub(crate) struct Collector<'a> {
    alloc: Global,
    walk: Walk<'a>,
    /// What the items before the present one set.
    done: SettingList,
    /// What the present item sets, once its value has begun.
    draft: Option<Draft>,
}

impl<'a> Collector<'a> {
    /// The items of no tokens: none is read yet. It takes no memory.
    pub(crate) fn new(alloc: Global) -> Collector<'a>
        ensures left { (ps : List Place) → collected_left result ps ≡ items_settings (items_of ps) }
        ensures begun { is_valued result.walk.step ≡ is_some result.draft }
        ensures depth { result.walk.depth ≡ 0 }
    {
        Collector {
            alloc,
            walk: Walk::new(),
            done: SettingList::new(alloc),
            draft: None,
        }
    }

    /// Goes on with one more token, which opens one parenthesis at most.
    pub(crate) fn read(&mut self, lexeme: &Lexeme<'a>) -> Result<(), AllocError>
        requires begun { is_valued self.old.walk.step ≡ is_some self.old.draft }
        requires depth { self.old.walk.depth + 1 < 2 ^ 64 }
        ensures left { OnOk result ((ps : List Place) → collected_left self.new ps ≡ collected_left self.old (alone (lexeme_of lexeme.now) ∷ ps)) }
        ensures begun { OnOk result (is_valued self.new.walk.step ≡ is_some self.new.draft) }
        ensures depth { OnOk result (self.new.walk.depth ≤ self.old.walk.depth + 1) }
    {
        match self.walk.read(&Window::new(false, lexeme, &None)) {
            Part::Comma => self.end_item(),
            Part::Equals(target) => self.begin_value(target.name),
            Part::Value => self.push(lexeme),
            Part::Front => Ok(()),
        }
    }

    /// Ends the present item, if its value has begun.
    fn end_item(&mut self) -> Result<(), AllocError>
        ensures { OnOk result (ItemEnds self.old self.new) }
    {
        if let Some(draft) = self.draft.take() {
            self.done.push(draft.finish())?;
        }
        Ok(())
    }

    /// Begins the value of this variable.
    fn begin_value(&mut self, name: &[u8]) -> Result<(), AllocError>
        ensures { OnOk result (ValueBegins name.now self.old self.new) }
    {
        let name = lower(self.alloc, name)?;
        self.draft = Some(Draft::new(self.alloc, name));
        Ok(())
    }

    /// Puts a token to the value that has begun.
    fn push(&mut self, lexeme: &Lexeme<'_>) -> Result<(), AllocError>
        ensures { OnOk result (ValueGoesOn (lexeme_of lexeme.now) self.old self.new) }
    {
        if let Some(draft) = &mut self.draft {
            draft.push(lexeme)?;
        }
        Ok(())
    }

    /// The settings, of which there are no more.
    pub(crate) fn finish(self) -> Result<SettingList, AllocError>
        requires { is_valued self.walk.step ≡ is_some self.draft }
        ensures { IfOk result (λ list. list ≡ collected_left self.entry []) }
    {
        let mut collector = self;
        collector.end_item()?;
        Ok(collector.done)
    }
}
