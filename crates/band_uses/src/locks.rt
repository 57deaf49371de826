//! Who writes is alone.
ghost use Rattle.std.specs.Prelude.{◌≡◌, [], OnSome};
ghost use Rattle.band_lock.specs.ReaderWriter.{IsWholeLock};

use band_base::{Poll, Steps, Waker};
use band_lock::{RwLockState, WriteAccess};
use std::sync::ledger::Ledger;

/// Asks to write, and gives up where it would have to wait. Who writes is alone.
pub fn write_now<L: Ledger>(
    lock: &mut RwLockState,
    waker: Waker,
    steps: &mut Steps<L>,
) -> Option<WriteAccess>
    ensures held { OnSome result (lock.new.shares.held ≡ lock.new.max) }
    ensures alone { OnSome result (lock.new.shares.line.granted ≡ []) }
    ensures whole { IsWholeLock lock.new }
{
    let mut request = lock.write();
    match request.poll_once(lock, waker, steps) {
        Ok(Poll::Ready(access)) => {
            request.lose();
            Some(access)
        }
        Ok(Poll::Pending) | Err(_) => {
            request.cancel(lock, steps);
            None
        }
    }
}
