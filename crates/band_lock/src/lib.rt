//! A mutex and a reader-writer lock, as states whose waits are polled.
#![tactic(auto)]

mod mutex;
mod rw_lock;

pub use mutex::{LockGuard, LockRequest, MutexState};
pub use rw_lock::{ReadAccess, ReadRequest, RwLockState, WriteAccess, WriteRequest};

#[cfg(test)]
mod tests;
