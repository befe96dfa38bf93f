//! Laws of a session: second readings of the record that `rws_record` defines, which say why each thing was given out, where a
//! command goes, what has set the session on its links, and what a session that rests has answered. They name no rule of its next
//! step.
//!
//! Definitions stand in `specs/`: Causes, History, Answers and the Laws that speak of them. The functions here compute nothing; their
//! contracts are the laws.
#![tactic(auto)]

mod law;

pub use law::{
    asks_first_what_is_wanted, causes, counts_its_log, executes_keep_their_form, goes_where_found,
    has_answered, links_are_set_alike, no_change_in_read_only, nothing_behind_hidden,
    one_link_each, reads_see_commits, records_come_first, replies_are_whole, stays_on_its_link,
    writes_at_primary,
};
