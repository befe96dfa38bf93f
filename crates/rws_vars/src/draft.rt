//! A setting whose value is read token by token.

ghost use Rattle.std.specs.Prelude.{◌≡◌, ◌∷◌, [], List, IfOk, OnOk};
ghost use Rattle.rws_token.specs.Lexeme as tokens;
ghost use Rattle.rws_token.specs.Lexeme.{lexeme_of};
ghost use Rattle.rws_class.specs.Numbers.{is_sign};
ghost use Rattle.rws_vars.specs.Assignments.{given};
ghost use Rattle.rws_vars.specs.States.{shape_left, draft_left};

use crate::setting::Setting;
use rws_token::{Lexeme, TokenKind, is_symbol};
use rws_wire::Text;
use std::alloc::{AllocError, Global};

/// What was read of a value, as far as it decides whether it is literal.
#[derive(Clone, Copy, Debug)]
pub(crate) enum Shape {
    Empty,
    /// A sign, for which a number is due.
    Sign,
    /// A literal, if nothing follows.
    Literal,
    /// No literal.
    Other,
}

fn is_sign(lexeme: &Lexeme<'_>) -> bool
    ensures { result ≡ is_sign (lexeme_of lexeme.now) }
{
    is_symbol(lexeme, b'+') || is_symbol(lexeme, b'-')
}

impl Shape {
    /// The shape of the value with its first token.
    fn first(lexeme: &Lexeme<'_>) -> Shape
        ensures { (ts : List tokens.Lexeme) → shape_left result ts ≡ shape_left Shape.Empty (lexeme_of lexeme.now ∷ ts) }
    {
        match lexeme.kind {
            TokenKind::Str | TokenKind::Number | TokenKind::Word => Shape::Literal,
            _ if is_sign(lexeme) => Shape::Sign,
            _ => Shape::Other,
        }
    }

    /// The shape of the value with one more token.
    fn behind(self, lexeme: &Lexeme<'_>) -> Shape
        ensures { (ts : List tokens.Lexeme) → shape_left result ts ≡ shape_left self (lexeme_of lexeme.now ∷ ts) }
    {
        match self {
            Shape::Empty => Shape::first(lexeme),
            Shape::Sign => match lexeme.kind {
                TokenKind::Number => Shape::Literal,
                _ => Shape::Other,
            },
            Shape::Literal | Shape::Other => Shape::Other,
        }
    }

    /// Whether the value is literal if it ends here.
    fn is_literal(self) -> bool
        ensures { result ≡ shape_left self [] }
    {
        matches!(self, Shape::Literal)
    }
}

/// A setting of whose value some tokens were read.
#[derive(Debug, Drop)]
pub(crate) struct Draft {
    name: Text,
    shape: Shape,
    value: Text,
}

impl Draft {
    /// A setting of this name. Nothing of its value is read yet. It takes no memory.
    pub(crate) fn new(alloc: Global, name: Text) -> Draft
        ensures { (ts : List tokens.Lexeme) → draft_left result ts ≡ given name ts }
    {
        Draft {
            name,
            shape: Shape::Empty,
            value: Text::empty(alloc),
        }
    }

    /// Goes on with one more token of the value.
    pub(crate) fn push(&mut self, lexeme: &Lexeme<'_>) -> Result<(), AllocError>
        ensures { OnOk result ((ts : List tokens.Lexeme) → draft_left self.new ts ≡ draft_left self.old (lexeme_of lexeme.now ∷ ts)) }
    {
        self.value.extend_from_slice(lexeme.bytes)?;
        self.shape = self.shape.behind(lexeme);
        Ok(())
    }

    /// The setting, whose value ends here.
    pub(crate) fn finish(self) -> Setting
        ensures { result ≡ draft_left self [] }
    {
        Setting {
            name: self.name,
            literal: self.shape.is_literal(),
            value: self.value,
        }
    }
}
