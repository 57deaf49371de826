//! What calls for others leave of a request's place, and of what is held.
ghost use Rattle.std.specs.Prelude.{◌≡◌, ◌+◌, ◌≤◌};
ghost use Rattle.band_sem.specs.Semaphore.{IsOwn, SlotsDiffer};

use band_base::{Poll, PollError, Steps, Waker};
use band_sem::{Acquire, Semaphore, SemaphorePermit};
use std::sync::ledger::Ledger;

/// Another takes a permit without waiting, and gives it back.
pub fn another_comes_and_goes<L: Ledger>(mine: &Acquire, sem: &mut Semaphore, steps: &mut Steps<L>)
    requires { IsOwn mine.now.stage mine.now.size sem.old }
    ensures own { IsOwn mine.now.stage mine.now.size sem.new }
    ensures held { sem.old.held ≤ sem.new.held }
{
    if let Some(permit) = sem.try_acquire(1) {
        sem.drop_permit(permit, steps);
    }
}

/// Permits are added and taken away again, and the answer tells whether both were done.
pub fn permits_come_and_go<L: Ledger>(
    mine: &Acquire,
    sem: &mut Semaphore,
    steps: &mut Steps<L>,
) -> bool
    requires { IsOwn mine.now.stage mine.now.size sem.old }
    ensures own { IsOwn mine.now.stage mine.now.size sem.new }
    ensures held { sem.old.held ≤ sem.new.held }
{
    match sem.release(1, steps) {
        Ok(()) => match sem.reduce_permits(1, steps) {
            Ok(()) => true,
            Err(_) => false,
        },
        Err(_) => false,
    }
}

/// Another's permit ends, and whoever it wakes is told.
pub fn another_forgets(
    mine: &Acquire,
    permit: SemaphorePermit,
    sem: &mut Semaphore,
) -> Option<Waker>
    requires own { IsOwn mine.now.stage mine.now.size sem.old }
    requires number { permit.of ≡ sem.old.number }
    requires held { permit.count ≤ sem.old.held }
    ensures own { IsOwn mine.now.stage mine.now.size sem.new }
    ensures held { sem.old.held ≤ sem.new.held + permit.count }
{
    sem.forget(permit);
    sem.take_wake()
}

/// Another asks once more, and gives up where it still has to wait.
pub fn another_asks<L: Ledger>(
    mine: &Acquire,
    mut other: Acquire,
    sem: &mut Semaphore,
    steps: &mut Steps<L>,
) -> Result<Poll<SemaphorePermit>, PollError>
    requires own { IsOwn mine.now.stage mine.now.size sem.old }
    requires number { other.of ≡ sem.old.number }
    requires others { IsOwn other.stage other.size sem.old }
    requires apart { SlotsDiffer mine.now.stage other.stage }
    ensures { IsOwn mine.now.stage mine.now.size sem.new }
{
    let answer = other.poll_once(sem, Waker(0), steps);
    other.cancel(sem, steps);
    answer
}

/// Another asks once more and gives up, and the oldest waker is taken: no fewer permits are held.
pub fn another_gives_up<L: Ledger>(mut other: Acquire, sem: &mut Semaphore, steps: &mut Steps<L>)
    requires number { other.of ≡ sem.old.number }
    requires own { IsOwn other.stage other.size sem.old }
    ensures number { sem.new.number ≡ sem.old.number }
    ensures held { sem.old.held ≤ sem.new.held }
{
    if let Ok(Poll::Ready(permit)) = other.poll_once(sem, Waker(0), steps) {
        permit.lose();
    }
    other.cancel(sem, steps);
    let _ = sem.take_wake();
}

/// Two permits of one semaphore: whatever another asks, both stay held, and each can be given back.
pub fn gives_both_back<L: Ledger>(
    one: SemaphorePermit,
    two: SemaphorePermit,
    other: Acquire,
    sem: &mut Semaphore,
    steps: &mut Steps<L>,
)
    requires one { one.of ≡ sem.old.number }
    requires two { two.of ≡ sem.old.number }
    requires held { one.count + two.count ≤ sem.old.held }
    requires number { other.of ≡ sem.old.number }
    requires own { IsOwn other.stage other.size sem.old }
    ensures held { sem.old.held ≤ sem.new.held + (one.count + two.count) }
{
    another_gives_up(other, sem, steps);
    sem.drop_permit(one, steps);
    sem.drop_permit(two, steps);
}
