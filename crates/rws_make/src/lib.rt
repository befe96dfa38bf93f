//! What makes boards, a maker in memory, and the parts of a board over sockets that touch no socket.
#![tactic(auto)]

mod board_maker;
mod board_plan;
mod list_maker;
mod output;
mod planned_board;
mod scrambles;
mod timer;

pub use board_maker::{BoardMaker, MakeFault};
pub use board_plan::{BoardList, BoardPlan};
pub use list_maker::{ListMaker, with_board};
pub use output::Output;
pub use planned_board::{PlannedBoard, counted};
pub use scrambles::Scrambles;
pub use timer::Timer;
