//! What no clause says: that calls succeed, in small lives of a condition variable.
ghost use Rattle.std.specs.Prelude.{◌≡◌, ◌<◌};
ghost use Rattle.band_base.specs.declared.poll.Poll.TheVariants as poll;
ghost use Rattle.band_sem.specs.Permit.{new_permit};
ghost use Rattle.band_sem.specs.Semaphore.{taken};

use crate::Condvar;
use band_base::{Poll, PollError, Steps, Waker};
use band_lock::{LockGuard, MutexState};
use std::alloc::Global;
use std::marker::Brand;
use std::process::Abort;
use std::sync::ledger::{Blank, Ledger};

/// What a poll gives that is ready.
fn ready<R: Abort>(rt: &R, answer: Result<Poll<LockGuard>, PollError>) -> LockGuard
    ensures { answer ≡ Ok (poll.Ready result) }
{
    match answer {
        Ok(Poll::Ready(guard)) => guard,
        Ok(Poll::Pending) => panic!(rt; "it was to be ready"),
        Err(error) => panic!(rt; "{error}"),
    }
}

/// A poll after which the wait goes on.
fn pending<R: Abort>(rt: &R, answer: Result<Poll<LockGuard>, PollError>)
    ensures { answer ≡ Ok poll.Pending }
{
    match answer {
        Ok(Poll::Pending) => {}
        Ok(Poll::Ready(_guard)) => panic!(rt; "it was to wait"),
        Err(error) => panic!(rt; "{error}"),
    }
}

/// The guard of a mutex that is free.
fn locked<R: Abort>(rt: &R, mutex: &mut MutexState) -> LockGuard
    ensures guard { result ≡ new_permit mutex.old.number 1 }
    ensures state { mutex.new ≡ taken 1 mutex.old }
{
    match mutex.try_lock() {
        Some(guard) => guard,
        None => panic!(rt; "it was to be free"),
    }
}

fn number(waker: Option<Waker>) -> u64 {
    match waker {
        Some(waker) => waker.0,
        None => 0,
    }
}

/// One that was chosen and gives up hands its baton on, and the other is ready.
fn the_baton_is_handed_on<L: Ledger, R: Abort>(rt: &R, alloc: Global, steps: &mut Steps<L>) {
    let mut mutex = MutexState::new(alloc, 5);
    let mut condvar = Condvar::new(alloc);
    let guard = locked(rt, &mut mutex);
    let mut first = condvar.wait(guard);
    pending(rt, first.poll(&mut condvar, &mut mutex, Waker(1), steps));
    let guard = locked(rt, &mut mutex);
    let mut second = condvar.wait(guard);
    pending(rt, second.poll(&mut condvar, &mut mutex, Waker(2), steps));
    condvar.notify_one(steps);
    assert_eq!(rt; number(condvar.take_wake()), 1);
    first.cancel(&mut condvar, &mut mutex, steps);
    assert_eq!(rt; number(condvar.take_wake()), 2);
    let guard = ready(rt, second.poll(&mut condvar, &mut mutex, Waker(2), steps));
    mutex.drop_guard(guard, steps);
    second.lose();
}

/// One that was chosen stands in the mutex's line, and gives up there. Its baton goes to who is in line then.
fn the_baton_goes_along<L: Ledger, R: Abort>(rt: &R, alloc: Global, steps: &mut Steps<L>) {
    let mut mutex = MutexState::new(alloc, 5);
    let mut condvar = Condvar::new(alloc);
    let guard = locked(rt, &mut mutex);
    let mut first = condvar.wait(guard);
    assert_eq!(rt; first.of(), 5);
    pending(rt, first.poll(&mut condvar, &mut mutex, Waker(1), steps));
    let guard = locked(rt, &mut mutex);
    let mut second = condvar.wait(guard);
    pending(rt, second.poll(&mut condvar, &mut mutex, Waker(2), steps));
    condvar.notify_one(steps);
    assert_eq!(rt; number(condvar.take_wake()), 1);
    let guard = locked(rt, &mut mutex);
    pending(rt, first.poll(&mut condvar, &mut mutex, Waker(3), steps));
    first.cancel(&mut condvar, &mut mutex, steps);
    assert_eq!(rt; number(condvar.take_wake()), 2);
    guard.lose();
    second.lose();
}

/// It waits while the value is 0.
fn it_waits_while<L: Ledger, R: Abort>(rt: &R, alloc: Global, steps: &mut Steps<L>) {
    let mut mutex = MutexState::new(alloc, 5);
    let mut condvar = Condvar::new(alloc);
    let mut value = 0u64;
    let guard = locked(rt, &mut mutex);
    let mut wait = condvar.wait_while(guard, |value: &mut u64| *value == 0);
    pending(
        rt,
        wait.poll(&mut condvar, &mut mutex, &mut value, Waker(1), steps),
    );
    value = 1;
    condvar.notify_all(steps);
    assert_eq!(rt; number(condvar.take_wake()), 1);
    assert_eq!(rt; number(condvar.take_wake()), 0);
    let guard = ready(
        rt,
        wait.poll(&mut condvar, &mut mutex, &mut value, Waker(1), steps),
    );
    mutex.drop_guard(guard, steps);
    assert_eq!(rt; wait.of(), 5);
    wait.lose();
    let guard = locked(rt, &mut mutex);
    let unpolled = condvar.wait_while(guard, |value: &mut u64| *value == 0);
    unpolled.cancel(&mut condvar, &mut mutex, steps);
    locked(rt, &mut mutex).lose();
}

/// One that was released stands in the mutex's line while that is locked, and leaves its new waker there.
fn it_stands_in_the_mutexs_line<L: Ledger, R: Abort>(rt: &R, alloc: Global, steps: &mut Steps<L>) {
    let mut mutex = MutexState::new(alloc, 5);
    let mut condvar = Condvar::new(alloc);
    let mut value = 0u64;
    let guard = locked(rt, &mut mutex);
    let mut wait = condvar.wait_while(guard, |value: &mut u64| *value == 0);
    pending(
        rt,
        wait.poll(&mut condvar, &mut mutex, &mut value, Waker(1), steps),
    );
    let guard = locked(rt, &mut mutex);
    value = 1;
    condvar.notify_all(steps);
    assert_eq!(rt; number(condvar.take_wake()), 1);
    pending(
        rt,
        wait.poll(&mut condvar, &mut mutex, &mut value, Waker(2), steps),
    );
    pending(
        rt,
        wait.poll(&mut condvar, &mut mutex, &mut value, Waker(3), steps),
    );
    assert_eq!(rt; mutex.semaphore().waiting_count(), 1);
    wait.cancel(&mut condvar, &mut mutex, steps);
    assert_eq!(rt; mutex.semaphore().waiting_count(), 0);
    assert_eq!(rt; number(condvar.take_wake()), 0);
    guard.lose();
}

/// One that was released stands in the mutex's line, is granted the mutex there, and then asks its condition.
fn it_is_granted_in_the_mutexs_line<L: Ledger, R: Abort>(
    rt: &R,
    alloc: Global,
    steps: &mut Steps<L>,
) {
    let mut mutex = MutexState::new(alloc, 5);
    let mut condvar = Condvar::new(alloc);
    let mut value = 0u64;
    let guard = locked(rt, &mut mutex);
    let mut wait = condvar.wait_while(guard, |value: &mut u64| *value == 0);
    pending(
        rt,
        wait.poll(&mut condvar, &mut mutex, &mut value, Waker(1), steps),
    );
    let guard = locked(rt, &mut mutex);
    value = 1;
    condvar.notify_all(steps);
    assert_eq!(rt; number(condvar.take_wake()), 1);
    pending(
        rt,
        wait.poll(&mut condvar, &mut mutex, &mut value, Waker(2), steps),
    );
    mutex.drop_guard(guard, steps);
    assert_eq!(rt; number(mutex.take_wake()), 2);
    let guard = ready(
        rt,
        wait.poll(&mut condvar, &mut mutex, &mut value, Waker(3), steps),
    );
    mutex.drop_guard(guard, steps);
    assert_eq!(rt; mutex.semaphore().available_permits(), 1);
    wait.lose();
}

fn each_life<L: Ledger, R: Abort>(rt: &R, alloc: Global, blank: Blank)
    requires name { blank.name ≡ L.name }
    requires parts { blank.parts ≡ L.parts }
    requires some { 0 < blank.parts }
{
    let mut steps: Steps<L> = Steps::new(blank);
    the_baton_is_handed_on(rt, alloc, &mut steps);
    the_baton_goes_along(rt, alloc, &mut steps);
    it_waits_while(rt, alloc, &mut steps);
    it_stands_in_the_mutexs_line(rt, alloc, &mut steps);
    it_is_granted_in_the_mutexs_line(rt, alloc, &mut steps);
}

#[test]
fn condition_variables_live(rt: HostRuntime) {
    each_life::<Brand, HostRuntime>(&rt, rt.alloc(), Blank::new(1));
}
