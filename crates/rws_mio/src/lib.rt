//! Boards over sockets, and their maker.
#![tactic(auto)]

mod addresses;
mod deadlines;
mod gate;
mod leaving;
mod mio_board;
mod mio_maker;
mod opening;
mod peer;
mod sending;
mod serving;
mod sockets;
mod table;

pub use mio_board::MioBoard;
pub use mio_maker::MioMaker;
