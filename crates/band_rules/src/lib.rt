//! The rules of scripts: what a call makes of named objects, what is written for it, and what the rules keep over any calls.
#![tactic(auto)]

mod laws;
mod reply;

pub use laws::{
    a_front_is_granted, closing_is_for_good, heads_wait, lines_stand_in_turn,
    locks_are_for_readers, no_more_than_all, numbers_fit, only_giving_back_and_closing_wake,
    permits_are_kept, refusals_change_nothing, wakes_name_who_is_told, who_waits_is_ended,
    writes_exclude,
};
pub use reply::Reply;
