//! A caller's own wait.
ghost use Rattle.std.specs.Prelude.{◌≡◌, ℕ, Bool, Result, IsTrue, IsErrOf, ◌↔◌};
ghost use Rattle.band_base.specs.declared.poll.Poll.{Poll as Answer};
ghost use Rattle.band_base.specs.declared.poll.PollError.{PollError as Fault};
ghost use Rattle.band_base.specs.declared.poll.PollError.TheVariants.{Finished};
ghost use Rattle.band_base.specs.Polled.{Marks};

use crate::{Poll, PollError, Waker};

/// A state of the caller that is polled until it gives a value, by a cell or a pool that drives it, or by a thread that blocks
/// on it. It stands for `std::future::Future`.
pub trait Polled {
    /// What it gives.
    type Output;

    /// Has it given its value?
    ghost done: { Self → Bool };

    /// What a poll may do: the state before it, its waker, its answer, and the state after it. Each implementation states its own.
    ghost moves: { Self → ℕ → Result (Answer Self.Output) Fault → Self → Type 0 };

    /// Polls it. `Pending` leaves this waker in place of the one before.
    fn poll(&mut self, waker: Waker) -> Result<Poll<Self::Output>, PollError>
        ensures moves { moves self.old waker.0 result self.new }
        ensures finished { IsErrOf result Finished ↔ IsTrue (done self.old) }
        // The value marks it as done, and every other answer leaves the mark.
        ensures marks { Marks result (done self.old) (done self.new) };

    /// Ends it, at any moment.
    fn cancel(self);
}
