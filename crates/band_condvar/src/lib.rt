//! The condition variable: waiting for a change of a value that a mutex guards.
#![tactic(auto)]

mod condvar;
pub mod laws;
mod place;
mod queue;
mod stage;
#[cfg(test)]
mod tests;
mod wait;
mod wait_while;

pub use condvar::Condvar;
pub use wait::CondWait;
pub use wait_while::CondWaitWhile;
