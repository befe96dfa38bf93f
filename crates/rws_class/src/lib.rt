//! The class of a statement: where it may be sent, and what it may change there. The class is that of a definition
//! over the statement's whole list of tokens; the code takes one pass and no memory.
#![tactic(auto)]

mod class;
mod classifier;
mod first_tokens;
mod first_word;
mod form;
mod number;
mod reader;
mod rule;
mod set;
mod statement;

pub use class::Class;
pub use classifier::classify;

#[cfg(test)]
mod tests;
