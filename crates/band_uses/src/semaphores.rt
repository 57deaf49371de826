//! A request that doesn't wait.
ghost use Rattle.std.specs.Prelude.{IsTrue};
ghost use Rattle.band_balance.specs.Line.{is_served};
ghost use Rattle.band_sem.specs.Semaphore.{IsLawful};

use band_base::{Poll, Steps, Waker};
use band_sem::Semaphore;
use std::sync::ledger::Ledger;

/// Asks for one permit, gives it back at once, and tells whether there was one to be had without waiting.
pub fn knock<L: Ledger>(sem: &mut Semaphore, waker: Waker, steps: &mut Steps<L>) -> bool
    ensures served { IsTrue result → IsTrue (is_served 1 sem.old.line) }
    ensures lawful { IsLawful sem.new }
{
    let mut request = sem.acquire(1);
    match request.poll_once(sem, waker, steps) {
        Ok(Poll::Ready(permit)) => {
            sem.drop_permit(permit, steps);
            request.cancel(sem, steps);
            true
        }
        Ok(Poll::Pending) | Err(_) => {
            request.cancel(sem, steps);
            false
        }
    }
}
