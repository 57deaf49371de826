//! Small machines that tasks wait for: a countdown, a latch, a barrier, a wait group, a shutdown and a completion.
#![tactic(auto)]

mod barrier;
mod completion;
mod count_full;
mod countdown;
mod latch;
pub mod laws;
mod registration;
mod shutdown;
#[cfg(test)]
mod tests;
mod wait_group;
mod wait_set;

pub use barrier::{Barrier, BarrierWait, BarrierWaitResult};
pub use completion::{Abandoned, Completer, Completion, CompletionState, CompletionWait};
pub use count_full::CountFull;
pub use countdown::CountdownState;
pub use latch::{Latch, LatchWait};
pub use registration::Registration;
pub use shutdown::{RequestedWait, Shutdown, ShutdownGuard, ShutdownState, ShutdownWatch};
pub use wait_group::{Wait, WaitGroup, WaitGroupState};
pub use wait_set::WaitSet;
