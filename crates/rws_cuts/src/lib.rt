//! Laws on how a stream's bytes are cut: a session does the same, whatever the pieces are in which its bytes come.
//!
//! Definitions stand in `specs/`: Turns, Agreement and the Laws that speak of them. The functions here compute nothing; their
//! contracts are the laws.
#![tactic(auto)]

mod law;

pub use law::{
    agreement_lasts, client_pieces_join, link_pieces_join, one_turn, pieces_may_wait,
    pieces_of_links, pieces_wait,
};
