//! The settings of a session: what each of its session commands sets, and what a list of them leaves. What may be left
//! out of such a list, and what that changes, stands in `specs/Reductions.antt` and in the laws of `law.rt`.
#![tactic(auto)]

mod assigning;
mod collector;
mod draft;
mod heading;
mod law;
mod setting;
mod setting_list;
mod settings;
mod statement;

pub use assigning::assignments;
pub use law::{
    reductions_compose, reductions_go_on, reductions_keep_the_map, reductions_may_not_compose,
    whole_lists_are_reductions,
};
pub use setting::Setting;
pub use setting_list::SettingList;
pub use settings::Settings;

#[cfg(test)]
mod tests;
