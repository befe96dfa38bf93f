//! The trace text: the lines of a script that say what events come, and the lines in which actions and steps of
//! the pool are printed.
#![tactic(auto)]

mod bytes;
mod event_line;
mod event_reader;
mod found;
mod line_reader;
mod naming;
mod number;
mod order;
mod piece;
mod place;
mod print;
mod read_error;
mod script_board;
mod settings;
mod side;

pub use event_reader::EventReader;
pub use print::{action_line, bad_line, call_line, end_line, usage_line};
pub use read_error::ReadError;
pub use script_board::ScriptBoard;
pub use settings::TraceSettings;
pub use side::Side;

#[cfg(test)]
mod tests;
