//! The definitions that every contract above cites: a line with its signed balance, the object that it stands in, and what
//! can be done to it, as data. They stand in `specs/`. There is no code here but laws: functions with an empty body.
#![tactic(auto)]

mod laws;

pub use laws::{
    closing_is_for_good, only_giving_back_and_closing_wake, permits_add_up, rules_grant_a_front,
    rules_keep_bounds, rules_keep_order, rules_keep_shares, rules_look_at_no_order,
    rules_wake_who_is_told, who_writes_is_alone,
};
