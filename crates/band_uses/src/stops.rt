//! A server that stops closes its semaphore.
ghost use Rattle.std.specs.Prelude.{◌≡◌, true, false, [], IsTrue, Some, MatchOption, map, slice_get};

use band_base::{Poll, PollError, Steps, Waker};
use band_sem::Semaphore;
use std::sync::ledger::Ledger;

/// Closes a semaphore with nobody to wake, and tells the first that waited, if anybody did.
pub fn stop<L: Ledger>(sem: &mut Semaphore, steps: &mut Steps<L>) -> Option<Waker>
    requires open_still { sem.old.closed ≡ false }
    requires quiet { sem.old.line.wakes ≡ [] }
    ensures closed { sem.new.closed ≡ true }
    ensures nobody { sem.new.line.waiting ≡ [] }
    ensures first { MatchOption result (sem.old.line.waiting ≡ [])
        (λ waker. slice_get (map (λ w. w.waker) sem.old.line.waiting) 0 ≡ Some waker.0) }
{
    sem.close(steps);
    sem.take_wake()
}

/// Who comes after the close gets nothing, also of no permits, and leaves nothing behind.
pub fn come_late<L: Ledger>(sem: &mut Semaphore, waker: Waker, steps: &mut Steps<L>) -> bool
    requires { sem.old.closed ≡ true }
    ensures told { IsTrue result }
    ensures same { sem.new ≡ sem.old }
{
    let mut request = sem.acquire(0);
    let told = match request.poll_once(sem, waker, steps) {
        Ok(Poll::Ready(permit)) => {
            permit.lose();
            false
        }
        Ok(Poll::Pending) => false,
        Err(error) => matches!(error, PollError::Closed),
    };
    request.cancel(sem, steps);
    told
}
