//! Scripts over bytes: the telling of their calls, and the program. The player, the language and the rules stand below it.
#![tactic(auto)]

mod bulk;
mod fault;
mod held;
mod lines;
mod playing;
mod print;
mod program;
mod script;
mod summary;
mod words;

pub use band_player::Player;
pub use band_rules::{
    Reply, a_front_is_granted, closing_is_for_good, heads_wait, lines_stand_in_turn,
    locks_are_for_readers, no_more_than_all, numbers_fit, only_giving_back_and_closing_wake,
    permits_are_kept, refusals_change_nothing, wakes_name_who_is_told, who_waits_is_ended,
    writes_exclude,
};
pub use band_script::{Call, Name, decodes_exactly, longest_line, one_call, parse_line};
pub use bulk::bulk_script;
pub use fault::PlayFault;
pub use program::run;
pub use script::play;

#[cfg(test)]
mod tests;
