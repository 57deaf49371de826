//! Lives of a semaphore, worked out by hand: calls, and what all figures are after each.
ghost use Rattle.band_sem.specs.Requests.{AreOwn};

use crate::callers::{
    Outcome, asks, cancels_next, closes, lose_all, polls_next, reduces, releases, takes_wake,
};
use crate::{Acquire, Semaphore};
use band_base::{Steps, Waker};
use std::alloc::Global;
use std::collections::VecDeque;
use std::process::Abort;
use std::sync::ledger::Ledger;

/// A call of a worked life.
#[derive(Drop)]
pub(crate) enum Call {
    /// A request of this size with this waker, which has to wait.
    Ask(u64, u64),
    /// A request of this size, which is told that it is closed.
    TooLate(u64),
    /// The oldest request polls with this waker, and is now the newest.
    Again(u64),
    /// The oldest request has a permit of so many.
    Collect(u64),
    /// The oldest request is told that it is closed.
    Hear,
    /// The oldest request gives up.
    Cancel,
    Release(u64),
    Reduce(u64),
    /// More than may be owed.
    Refused(u64),
    Close,
}

use Call::{Again, Ask, Cancel, Close, Collect, Hear, Reduce, Refused, Release, TooLate};

/// A call, and then what is free, and what is available, how many wait, how much is granted and how many nodes
/// there are.
pub(crate) type Line = (Call, i128, [u64; 4]);

fn is_permit<R: Abort>(rt: &R, outcome: Outcome, n: u64) {
    match outcome {
        Outcome::Got(permit) => {
            let count = permit.permits();
            permit.lose();
            assert_eq!(rt; count, n);
        }
        Outcome::Nothing | Outcome::Closed => panic!(rt; "it was to have its permit"),
    }
}

fn is_nothing<R: Abort>(rt: &R, outcome: Outcome) {
    match outcome {
        Outcome::Nothing => {}
        Outcome::Closed => panic!(rt; "it was to wait"),
        Outcome::Got(permit) => {
            permit.lose();
            panic!(rt; "it was to wait")
        }
    }
}

fn is_closed<R: Abort>(rt: &R, outcome: Outcome) {
    match outcome {
        Outcome::Closed => {}
        Outcome::Nothing => panic!(rt; "it was to be told that it is closed"),
        Outcome::Got(permit) => {
            permit.lose();
            panic!(rt; "it was to be told that it is closed")
        }
    }
}

fn make<L: Ledger, R: Abort>(
    rt: &R,
    sem: &mut Semaphore,
    requests: &mut VecDeque<Acquire>,
    call: &Call,
    steps: &mut Steps<L>,
)
    requires { AreOwn sem.old requests.old.items }
    ensures { AreOwn sem.new requests.new.items }
{
    match call {
        Ask(size, waker) => is_nothing(rt, asks(rt, sem, requests, *size, Waker(*waker), steps)),
        TooLate(size) => is_closed(rt, asks(rt, sem, requests, *size, Waker(0), steps)),
        Again(waker) => is_nothing(rt, polls_next(rt, sem, requests, Waker(*waker), steps)),
        Collect(n) => is_permit(rt, polls_next(rt, sem, requests, Waker(0), steps), *n),
        Hear => is_closed(rt, polls_next(rt, sem, requests, Waker(0), steps)),
        Cancel => cancels_next(rt, sem, requests, steps),
        Release(n) => assert!(rt; releases(sem, *n, steps)),
        Reduce(n) => assert!(rt; reduces(rt, sem, *n, steps)),
        Refused(n) => assert!(rt; !reduces(rt, sem, *n, steps)),
        Close => closes(sem, steps),
    }
}

fn figures(sem: &Semaphore) -> [u64; 4] {
    [
        sem.available_permits(),
        sem.waiting_count(),
        sem.granted_permits(),
        sem.line().occupied_len(),
    ]
}

fn calls<L: Ledger, R: Abort>(
    rt: &R,
    sem: &mut Semaphore,
    requests: &mut VecDeque<Acquire>,
    life: &[Line],
    steps: &mut Steps<L>,
)
    requires { AreOwn sem.old requests.old.items }
{
    for (next, free, wanted) in life {
        make(rt, sem, requests, next, steps);
        assert_eq!(rt; sem.free(), *free);
        assert_eq!(rt; figures(sem), *wanted);
    }
}

/// A life of a semaphore of so many permits, and then the wakers to wake.
pub(crate) fn lives<L: Ledger, R: Abort>(
    rt: &R,
    alloc: Global,
    permits: u64,
    life: &[Line],
    wakes: &[u64],
    steps: &mut Steps<L>,
) {
    let mut sem = Semaphore::new(alloc, 5, permits);
    let mut requests = VecDeque::new(alloc);
    calls(rt, &mut sem, &mut requests, life, steps);
    for waker in wakes {
        assert_eq!(rt; takes_wake(&mut sem), Some(*waker));
    }
    assert_eq!(rt; takes_wake(&mut sem), None);
    lose_all(requests);
}
