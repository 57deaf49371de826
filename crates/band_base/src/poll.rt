//! What a poll answers.

use thiserror::Error;

/// What a poll gives where it doesn't fail. Ports `std::task::Poll`.
#[derive(Drop)]
pub enum Poll<T> {
    /// The wait is over, with its value.
    Ready(T),
    /// The wait goes on, and the waker of this poll is left.
    Pending,
}

/// Why a poll gave nothing.
#[derive(Debug, Drop, Error)]
pub enum PollError {
    /// There was no memory for what the poll had to keep. Nothing changed.
    #[error("out of memory")]
    NoMemory,
    /// The state ended before: it gave its value, or answered `Closed`. Nothing changed.
    #[error("polled after it was ready")]
    Finished,
    /// A count stands at its last value. Nothing changed.
    #[error("a count is full")]
    CountFull,
    /// The shared state no longer knows the number.
    #[error("the number is not live")]
    Unknown,
    /// A driven state failed in another way than by memory.
    #[error("a driven state failed")]
    Driven,
    /// The semaphore was closed before it served the request.
    #[error("the semaphore is closed")]
    Closed,
}
