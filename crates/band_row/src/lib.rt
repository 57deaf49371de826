//! A partial line over a wait list: permits are given out piece by piece, to debts and to requests that wait.
#![tactic(auto)]

mod counts;
mod row;
mod wait_node;

pub use row::{Found, Row};
pub use wait_node::WaitNode;
