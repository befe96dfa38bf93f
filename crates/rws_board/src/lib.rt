//! What stands between a worker and the outside: events, actions, and the traits of input and output with their objects
//! in memory and over readers and writers. Each such object counts its faults, and never answers a failure that it
//! doesn't count.
#![tactic(auto)]

mod action;
mod board;
mod board_fault;
mod call_list;
mod event;
mod event_list;
mod failed;
mod file_list;
mod files;
mod interaction;
mod list_board;
mod mem_files;
mod mem_sink;
mod mem_source;
mod planned_faults;
mod read_source;
mod sink;
mod source;
mod system_files;
mod write_sink;

pub use action::Action;
pub use board::Board;
pub use board_fault::BoardFault;
pub use call_list::CallList;
pub use event::Event;
pub use event_list::EventList;
pub use failed::Failed;
pub use file_list::FileList;
pub use files::{FileFault, Files};
pub use interaction::Interaction;
pub use list_board::ListBoard;
pub use mem_files::MemFiles;
pub use mem_sink::MemSink;
pub use mem_source::MemSource;
pub use read_source::ReadSource;
pub use sink::Sink;
pub use source::Source;
pub use system_files::SystemFiles;
pub use write_sink::WriteSink;

#[cfg(test)]
mod tests;
