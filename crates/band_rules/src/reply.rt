//! What a script line is answered with.

use band_base::Refusal;

/// The reply to a call.
#[derive(Clone, Copy)]
pub enum Reply {
    /// The call did its work.
    Done,
    /// The request has its permits.
    Ready,
    /// The request waits.
    Pending,
    /// It can't be served without waiting, or a split asks for more than there is. No name is made.
    Nothing,
    /// How many permits were taken.
    Drained(u64),
    /// The figures of an object: `free` is below 0 where there is debt; `waiting` counts requests, `granted` and `held` permits.
    Figures {
        available: u64,
        free: i128,
        waiting: u64,
        granted: u64,
        held: u64,
    },
    /// The call changed nothing and woke nobody.
    Refused(Refusal),
    /// The request waited when its semaphore was closed. Its name ends.
    Closed,
}
