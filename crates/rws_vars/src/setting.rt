//! One setting of a session, as a session command gives it.

use rws_wire::Text;

/// What is set, and to what.
#[derive(Debug, Drop)]
pub struct Setting {
    /// In lower case. A user variable's name begins with `@`; `database`, `names`, `transaction isolation` and
    /// `transaction access` stand for what USE, SET NAMES, SET CHARACTER SET and SET SESSION TRANSACTION set.
    pub name: Text,
    /// Whether the value is one string, number or word, with or without a sign before a number.
    pub literal: bool,
    /// The bytes of the value's tokens, one after the other, without what stands between them.
    pub value: Text,
}
