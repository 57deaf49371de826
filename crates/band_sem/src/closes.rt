//! A semaphore is closed: worked lives, also under debt, and calls on one that is closed.
ghost use Rattle.std.specs.Prelude.{◌≡◌, ◌<◌};
ghost use Rattle.band_sem.specs.Semaphore.{IsOwn};

use crate::lives::Call::{Again, Ask, Cancel, Close, Collect, Hear, Reduce, Release, TooLate};
use crate::lives::lives;
use crate::tests::{misses, pends, splits_and_merges, takes};
use crate::{Acquire, Semaphore, SemaphorePermit};
use band_base::{Poll, PollError, Steps, Waker};
use std::alloc::Global;
use std::marker::Brand;
use std::process::Abort;
use std::sync::ledger::{Blank, Ledger};

/// The share of the first pays what is owed, the debts are one from then on, and later releases pay it.
fn one_debt_is_left<L: Ledger, R: Abort>(rt: &R, alloc: Global, steps: &mut Steps<L>) {
    let life = [
        (Ask(5, 1), 2, [0, 1, 0, 1]),
        (Ask(1, 2), 2, [0, 2, 0, 2]),
        (Reduce(4), -2, [0, 2, 0, 3]),
        (Reduce(3), -5, [0, 2, 0, 4]),
        (Release(1), -4, [0, 2, 0, 4]),
        (Close, -4, [0, 0, 0, 3]),
        (Release(3), -1, [0, 0, 0, 3]),
        (Hear, -1, [0, 0, 0, 2]),
        (Release(2), 1, [1, 0, 0, 1]),
        (Cancel, 1, [1, 0, 0, 0]),
    ];
    lives(rt, alloc, 2, &life, &[1, 2], steps);
}

/// Who waits is woken in the order of the line, by the waker left last. A second close wakes nobody.
fn all_are_woken<L: Ledger, R: Abort>(rt: &R, alloc: Global, steps: &mut Steps<L>) {
    let life = [
        (Ask(3, 7), 2, [0, 1, 0, 1]),
        (Ask(1, 8), 2, [0, 2, 0, 2]),
        (Ask(1, 6), 2, [0, 3, 0, 3]),
        (Again(9), 2, [0, 3, 0, 3]),
        (Close, 2, [2, 0, 0, 3]),
        (Close, 2, [2, 0, 0, 3]),
        (Hear, 2, [2, 0, 0, 2]),
        (Cancel, 2, [2, 0, 0, 1]),
        (Hear, 2, [2, 0, 0, 0]),
    ];
    lives(rt, alloc, 2, &life, &[9, 8, 6], steps);
}

/// What was granted before is still to be had, or comes back and pays what is owed.
fn grants_stay<L: Ledger, R: Abort>(rt: &R, alloc: Global, steps: &mut Steps<L>) {
    let life = [
        (Ask(2, 1), 0, [0, 1, 0, 1]),
        (Ask(3, 2), 0, [0, 2, 0, 2]),
        (Ask(1, 3), 0, [0, 3, 0, 3]),
        (Release(5), 0, [0, 1, 5, 3]),
        (Reduce(1), -1, [0, 1, 5, 4]),
        (Close, -1, [0, 0, 5, 4]),
        (Collect(2), -1, [0, 0, 3, 3]),
        (Cancel, 2, [2, 0, 0, 1]),
        (TooLate(1), 2, [2, 0, 0, 1]),
        (Hear, 2, [2, 0, 0, 0]),
    ];
    lives(rt, alloc, 0, &life, &[1, 2, 3], steps);
}

/// Where nobody waits, a close only shuts out who comes later.
fn nobody_is_woken<L: Ledger, R: Abort>(rt: &R, alloc: Global, steps: &mut Steps<L>) {
    let life = [
        (Close, 3, [3, 0, 0, 0]),
        (TooLate(0), 3, [3, 0, 0, 0]),
        (Reduce(5), -2, [0, 0, 0, 1]),
        (Close, -2, [0, 0, 0, 1]),
        (Release(3), 1, [1, 0, 0, 0]),
        (TooLate(1), 1, [1, 0, 0, 0]),
    ];
    lives(rt, alloc, 3, &life, &[], steps);
}

fn each<L: Ledger, R: Abort>(rt: &R, alloc: Global, blank: Blank)
    requires name { blank.name ≡ L.name }
    requires parts { blank.parts ≡ L.parts }
    requires some { 0 < blank.parts }
{
    let mut steps: Steps<L> = Steps::new(blank);
    one_debt_is_left(rt, alloc, &mut steps);
    all_are_woken(rt, alloc, &mut steps);
    grants_stay(rt, alloc, &mut steps);
    nobody_is_woken(rt, alloc, &mut steps);
}

#[test]
fn a_close_ends_who_waits(rt: HostRuntime) {
    each::<Brand, HostRuntime>(&rt, rt.alloc(), Blank::new(1));
}

/// Why a poll gave nothing.
fn refusal<R: Abort>(rt: &R, answer: Result<Poll<SemaphorePermit>, PollError>) -> PollError {
    match answer {
        Err(error) => error,
        Ok(Poll::Pending) => panic!(rt; "it was not to wait"),
        Ok(Poll::Ready(permit)) => {
            permit.lose();
            panic!(rt; "it was not to be served")
        }
    }
}

/// A request is told that the semaphore is closed, and is finished then.
fn hears<L: Ledger, R: Abort>(rt: &R, request: Acquire, sem: &mut Semaphore, steps: &mut Steps<L>)
    requires number { request.of ≡ sem.old.number }
    requires own { IsOwn request.stage request.size sem.old }
{
    let mut request = request;
    let first = request.poll_once(sem, Waker(1), steps);
    assert!(rt; matches!(refusal(rt, first), PollError::Closed));
    let second = request.poll_once(sem, Waker(1), steps);
    assert!(rt; matches!(refusal(rt, second), PollError::Finished));
    request.lose();
}

/// Permits come back to a closed semaphore as ever, a part at a time.
fn comes_back<L: Ledger, R: Abort>(
    rt: &R,
    permit: SemaphorePermit,
    sem: &mut Semaphore,
    steps: &mut Steps<L>,
) {
    assert!(rt; permit.of() == sem.number());
    assert!(rt; permit.permits() == 3 && sem.held_permits() == 3);
    let mut permit = permit;
    splits_and_merges(rt, &mut permit, 1);
    let permit = sem.shrink(permit, 2, steps);
    assert_eq!(rt; sem.available_permits(), 2);
    sem.drop_permit(permit, steps);
    assert_eq!(rt; sem.available_permits(), 4);
    assert_eq!(rt; sem.held_permits(), 0);
}

/// Calls on a closed semaphore, which had one that waits with a share, and one that holds permits.
fn after_a_close<L: Ledger, R: Abort>(rt: &R, alloc: Global, blank: Blank)
    requires name { blank.name ≡ L.name }
    requires parts { blank.parts ≡ L.parts }
    requires some { 0 < blank.parts }
{
    let mut steps: Steps<L> = Steps::new(blank);
    let mut sem = Semaphore::new(alloc, 5, 4);
    let permit = takes(rt, &mut sem, 3);
    let mut request = sem.acquire(2);
    pends(rt, &mut request, &mut sem, Waker(7), &mut steps);
    assert!(rt; !sem.is_closed());
    sem.close(&mut steps);
    assert!(rt; sem.is_closed());
    hears(rt, request, &mut sem, &mut steps);
    let late = sem.acquire(0);
    hears(rt, late, &mut sem, &mut steps);
    misses(rt, &mut sem, 0);
    misses(rt, &mut sem, 1);
    comes_back(rt, permit, &mut sem, &mut steps);
    assert_eq!(rt; sem.drain_permits(1), 1);
    assert!(rt; sem.release(2, &mut steps).is_ok());
    assert_eq!(rt; sem.free(), 5);
    assert_eq!(rt; sem.take_wake().map(|waker| waker.0), Some(7));
    sem.close(&mut steps);
    assert!(rt; sem.take_wake().is_none());
}

#[test]
fn permits_come_back_after_a_close(rt: HostRuntime) {
    after_a_close::<Brand, HostRuntime>(&rt, rt.alloc(), Blank::new(1));
}
