//! A fair semaphore: permits, debts, and a line of requests that are granted in order.
#![tactic(auto)]

mod acquire;
mod balance;
mod errors;
mod permit;
mod semaphore;
mod store;

pub use acquire::Acquire;
pub use band_base::Refusal;
pub use band_row::WaitNode;
pub use errors::{MergeError, ReduceError, ReleaseError};
pub use permit::SemaphorePermit;
pub use semaphore::Semaphore;

#[cfg(test)]
mod callers;
#[cfg(test)]
mod closes;
#[cfg(test)]
mod debts;
#[cfg(test)]
mod lives;
#[cfg(test)]
mod mixed;
#[cfg(test)]
mod tests;
