//! A state as the tests drive it.
ghost use Rattle.std.specs.Prelude.{true, false};
ghost use Rattle.band_once.specs.declared.plan.Plan.TheVariants.{Over};

use band_base::{Poll, PollError, Polled, Waker};
use std::mem;

/// What a state gives.
#[derive(Drop)]
pub(crate) enum Plan<T> {
    /// Its value, once it was polled so many times for nothing.
    After(u64, T),
    /// No value, ever.
    Never,
    /// A fault at each poll.
    Faulty,
    /// Nothing more, since the value was given.
    Over,
}

impl<T: Drop> Polled for Plan<T> {
    type Output = T;

    ghost done = { elim [ Over ↦ true | _ ↦ false ] };

    ghost moves = { λ old waker answer new. Unit {0} };

    fn poll(&mut self, _waker: Waker) -> Result<Poll<T>, PollError> {
        match mem::replace(self, Plan::Over) {
            Plan::After(left, value) => {
                if left == 0 {
                    return Ok(Poll::Ready(value));
                }
                *self = Plan::After(left - 1, value);
                Ok(Poll::Pending)
            }
            Plan::Never => {
                *self = Plan::Never;
                Ok(Poll::Pending)
            }
            Plan::Faulty => {
                *self = Plan::Faulty;
                Err(PollError::Unknown)
            }
            Plan::Over => Err(PollError::Finished),
        }
    }

    fn cancel(self) {}
}
