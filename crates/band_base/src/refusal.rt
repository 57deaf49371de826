//! Why a call by name is refused.

/// Why a call changed nothing and woke nobody. Where several hold, the first of these is told.
#[derive(Clone, Copy, PartialEq, Eq)]
pub enum Refusal {
    /// A name or number that must be live is not.
    Unknown,
    /// It is live, and not what the call wants.
    Kind,
    /// A permit was to be merged with itself.
    Same,
    /// The new name is live.
    Taken,
    /// A request was polled that is a permit by now.
    Finished,
    /// Two permits are of two semaphores.
    Other,
    /// The permits would pass the largest count.
    Overflow,
    /// The debt would pass the largest count.
    Debt,
    /// The semaphore is closed, and serves no new request.
    Closed,
}
