//! Choices of a pool.

/// Which idle object a pool takes out next. Ports `QueueStrategy`.
#[derive(Clone, Copy, Default)]
pub enum QueueStrategy {
    /// The one that has been idle longest.
    #[default]
    Fifo,
    /// The one that came last.
    Lifo,
}

/// What becomes of an object whose check is cancelled. Ports `RecycleCancelledStrategy`.
#[derive(Clone, Copy, Default, PartialEq, Eq)]
pub enum RecycleCancelledStrategy {
    /// It leaves the pool.
    #[default]
    Detach,
    /// It is idle again.
    ReturnToPool,
}
