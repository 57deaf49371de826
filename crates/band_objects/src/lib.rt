//! The objects of a pool, what is known of each, and the manager that makes and checks them.
#![tactic(auto)]

mod manager;
mod object;
mod status;
mod store;
mod strategy;
#[cfg(test)]
mod tests;

pub use manager::ManageObject;
pub use object::{ObjectState, RetainResult};
pub use status::ObjectStatus;
pub use store::{CountedError, PoolState};
pub use strategy::{QueueStrategy, RecycleCancelledStrategy};
