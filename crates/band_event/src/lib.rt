//! Events that tasks wait for: one whose signal one wait takes, and one that stays set for all.
#![tactic(auto)]

mod auto;
pub mod laws;
mod manual;
mod place;
mod queue;
#[cfg(test)]
mod tests;
mod wait;

pub use auto::{AutoResetEvent, AutoWait};
pub use manual::{ManualResetEvent, ManualWait};
