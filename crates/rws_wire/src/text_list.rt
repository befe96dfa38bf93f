//! A list of texts, which contracts see as a list of lists of bytes.
ghost use Rattle.std.specs.Prelude.{◌≡◌, ◌++◌, ◌==◌, List, [], ◌∷◌, ℕ, length, slice_get, take, OnOk, OnErr};
ghost use Rattle.std.specs.Option.{option_copied};

use crate::Text;
use std::alloc::{AllocError, Global};
use std::marker::Model;

/// Texts in order.
#[derive(Debug, Drop)]
pub struct TextList {
    texts: Vec<Text>,
}

impl Model for TextList {
    ghost Value = { List (List ℕ) };

    ghost view = { λ list. list.texts.items };
}

impl TextList {
    /// No texts, which takes no memory.
    pub fn new(alloc: Global) -> TextList
        ensures { result ≡ [] }
    {
        TextList {
            texts: Vec::new(alloc),
        }
    }

    /// How many texts there are.
    pub fn len(&self) -> usize
        ensures { result ≡ length self.now }
    {
        self.texts.len()
    }

    /// Whether there is no text.
    pub fn is_empty(&self) -> bool
        ensures { result ≡ (length self.now == 0) }
    {
        self.texts.is_empty()
    }

    /// A look at the texts.
    pub fn as_slice(&self) -> &[Text]
        ensures { result.now ≡ self.now }
    {
        self.texts.as_slice()
    }

    /// The text at this place, counted from 0.
    pub fn get(&self, at: usize) -> Option<&Text>
        ensures { option_copied result ≡ slice_get self.now at }
    {
        self.texts.as_slice().get(at)
    }

    /// Puts a text at the end.
    pub fn push(&mut self, text: Text) -> Result<(), AllocError>
        ensures ok { OnOk result (self.new ≡ self.old ++ text ∷ []) }
        ensures err { OnErr result (self.new ≡ self.old) }
    {
        self.texts.push(text)?;
        Ok(())
    }

    /// Keeps the first `count` texts, all where there are fewer.
    pub fn truncate(&mut self, count: usize)
        ensures { self.new ≡ take count self.old }
    {
        self.texts.truncate(count);
    }

    /// Takes all texts out, and keeps the room for them.
    pub fn clear(&mut self)
        ensures { self.new ≡ [] }
    {
        self.texts.clear();
    }
}

impl Clone for TextList {
    ghost is_clone = { λ list copy. copy ≡ list };

    fn clone(&self) -> Result<TextList, AllocError> {
        Ok(TextList {
            texts: self.texts.clone()?,
        })
    }
}
