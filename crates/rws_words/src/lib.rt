//! The lists of words that the rules on statements know, and tokens with what stands beside them: which of them are
//! calls, and of what. Nothing here takes memory.
#![tactic(auto)]

mod beside;
mod call;
mod lists;
mod window;

pub use beside::{is_next_symbol, is_next_word, is_opened};
pub use call::is_name;
pub use lists::{is_among, is_character_set_name, is_refused_name, is_setting};
pub use window::Window;

#[cfg(test)]
mod tests;
