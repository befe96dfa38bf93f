//! What the items of a SET set, to what, and whether each can be repeated on other connections. Nothing here takes
//! memory.
#![tactic(auto)]

mod effect;
mod items;
mod mode;
mod target;
mod token;
mod value;
mod walk;

pub use effect::Effect;
pub use items::Items;
pub use target::{Target, Variable};
pub use token::{is_character_set, last_part};
pub use walk::{Part, Walk};

#[cfg(test)]
mod tests;
