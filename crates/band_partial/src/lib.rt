//! The laws of the partial line, in which permits are given out piece by piece: what it stands for, and that each
//! of its moves is a rule of a line. The definitions stand in `specs/`. There is no code here but laws: functions
//! with an empty body.
#![tactic(auto)]

mod laws;

pub use laws::{
    cancel_is_cancelling, collect_is_polling_granted, distribution_serves_a_front, draw_is_taking,
    enqueue_is_joining, give_out_goes_node_by_node, give_out_looks_at_no_order, head_waits,
    leave_new_waker_is_polling_waiting, open_part_is_open, owe_is_reducing, pass_on_is_giving_back,
    word_is_available, worked_rows,
};
