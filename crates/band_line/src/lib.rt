//! Where waits stand: an arena of slots, a linked line of waiters, a set of wakers and a batch of wakers.
#![tactic(auto)]

mod arena;
mod arena_iter;
mod line;
mod link;
mod nodes;
mod register;
mod slot_id;
mod store;
#[cfg(test)]
mod tests;
mod wait_list;
mod waker_batch;
mod waker_set;

pub use arena::Arena;
pub use arena_iter::ArenaIter;
pub use register::register_waker;
pub use slot_id::SlotId;
pub use wait_list::{WaitList, WaiterId};
pub use waker_batch::WakerBatch;
pub use waker_set::{WakerSet, WakerToken};
