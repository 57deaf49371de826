//! Why a call on a semaphore or a permit changed nothing.

use crate::SemaphorePermit;
use thiserror::Error;

/// Why permits were not released. Nothing changed.
#[derive(Debug, Drop, Error)]
pub enum ReleaseError {
    /// All the permits would pass the largest count.
    #[error("the permits would overflow")]
    Overflow,
}

/// Why permits were not taken away. Nothing changed.
#[derive(Debug, Drop, Error)]
pub enum ReduceError {
    /// The debt would pass the largest count.
    #[error("the debt would overflow")]
    Debt,
    /// There was no memory to keep the debt in.
    #[error("out of memory")]
    NoMemory,
}

/// Why two permits were not merged. Neither changed.
pub enum MergeError {
    /// They are of two semaphores. The one that was to be added comes back.
    OtherSemaphore(SemaphorePermit),
}
