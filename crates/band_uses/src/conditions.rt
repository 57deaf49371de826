//! A count that is taken from, behind a mutex.
ghost use Rattle.std.specs.Prelude.{◌≡◌, ◌+◌};
ghost use Rattle.std.specs.Bool.{OnTrue, OnFalse};

use band_base::{Poll, Steps, Waker};
use band_condvar::Condvar;
use band_lock::MutexState;
use std::sync::ledger::Ledger;

/// Takes one from a count, and tells whether it did. Where the mutex isn't free, or the count is 0, it gives up.
pub fn take_one<L: Ledger>(
    condvar: &mut Condvar,
    mutex: &mut MutexState,
    count: &mut u64,
    waker: Waker,
    steps: &mut Steps<L>,
) -> bool
    ensures taken { OnTrue result (count.new + 1 ≡ count.old) }
    ensures kept { OnFalse result (count.new ≡ count.old) }
{
    let Some(guard) = mutex.try_lock() else {
        return false;
    };
    let mut wait = condvar.wait_while(guard, |count: &mut u64| *count == 0);
    match wait.poll(condvar, mutex, count, waker, steps) {
        Ok(Poll::Ready(guard)) => {
            *count -= 1;
            mutex.drop_guard(guard, steps);
            wait.lose();
            true
        }
        Ok(Poll::Pending) | Err(_) => {
            wait.cancel(condvar, mutex, steps);
            false
        }
    }
}
