//! A count behind a mutex.
ghost use Rattle.std.specs.Prelude.{◌≡◌, ◌+◌, ◌<◌, ◌↔◌, IsTrue};
ghost use Rattle.std.specs.Bool.{OnTrue, OnFalse};
ghost use Rattle.band_balance.specs.Line.{is_served};
ghost use Rattle.band_sem.specs.Semaphore.{IsLike, taken, given_back};

use band_base::Steps;
use band_lock::MutexState;
use std::sync::ledger::Ledger;

/// Raises the count if nobody has the mutex and nobody waits for it, and tells whether it did.
pub fn raise<L: Ledger>(mutex: &mut MutexState, count: &mut u64, steps: &mut Steps<L>) -> bool
    requires { count.old < u64.MAX }
    ensures free { IsTrue result ↔ IsTrue (is_served 1 mutex.old.line) }
    ensures raised { OnTrue result (count.new ≡ count.old + 1) }
    ensures unlocked { OnTrue result (IsLike (given_back 1 (taken 1 mutex.old)) mutex.new) }
    ensures kept { OnFalse result ((count.new ≡ count.old) × (mutex.new ≡ mutex.old)) }
{
    let Some(guard) = mutex.try_lock() else {
        return false;
    };
    *count += 1;
    mutex.drop_guard(guard, steps);
    true
}
