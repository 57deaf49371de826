//! What no clause says: that calls succeed, in small lives of a semaphore, and the texts of errors.
ghost use Rattle.std.specs.Prelude.{◌≡◌, ◌+◌, ◌<◌, ◌≤◌, IsTrue};
ghost use Rattle.band_balance.specs.Line.{is_served};
ghost use Rattle.band_base.specs.declared.poll.Poll.TheVariants as poll;
ghost use Rattle.band_sem.specs.Permit.{new_permit};
ghost use Rattle.band_sem.specs.Semaphore.{IsLike, IsLawful, IsOwn, Polls, taken, released};

use crate::{Acquire, MergeError, ReduceError, ReleaseError, Semaphore, SemaphorePermit};
use band_base::{Poll, PollError, Steps, Waker};
use std::alloc::Global;
use std::marker::Brand;
use std::process::Abort;
use std::sync::ledger::{Blank, Ledger};
use std::test::Fail;

/// A poll that leaves the request waiting.
pub(crate) fn pends<L: Ledger, R: Abort>(
    rt: &R,
    request: &mut Acquire,
    sem: &mut Semaphore,
    waker: Waker,
    steps: &mut Steps<L>,
)
    requires number { request.old.of ≡ sem.old.number }
    requires own { IsOwn request.old.stage request.old.size sem.old }
    ensures polls { Polls request.old waker.0 sem.old (Ok poll.Pending) request.new sem.new }
    ensures lawful { IsLawful sem.new }
{
    match request.poll_once(sem, waker, steps) {
        Ok(Poll::Pending) => {}
        Ok(Poll::Ready(permit)) => {
            permit.lose();
            panic!(rt; "it was not to be served")
        }
        Err(error) => panic!(rt; "{error}"),
    }
}

/// A poll that gives the permit.
fn gets<L: Ledger, R: Abort>(
    rt: &R,
    request: &mut Acquire,
    sem: &mut Semaphore,
    waker: Waker,
    steps: &mut Steps<L>,
) -> SemaphorePermit
    requires number { request.old.of ≡ sem.old.number }
    requires own { IsOwn request.old.stage request.old.size sem.old }
    ensures polls { Polls request.old waker.0 sem.old (Ok (poll.Ready result)) request.new sem.new }
    ensures lawful { IsLawful sem.new }
{
    match request.poll_once(sem, waker, steps) {
        Ok(Poll::Ready(permit)) => permit,
        Ok(Poll::Pending) => panic!(rt; "it was to be served"),
        Err(error) => panic!(rt; "{error}"),
    }
}

/// Asks for one permit, gives it back at once, and tells whether there was one to be had without waiting.
fn knock<L: Ledger>(sem: &mut Semaphore, waker: Waker, steps: &mut Steps<L>) -> bool
    ensures served { IsTrue result → IsTrue (is_served 1 sem.old.line) }
    ensures lawful { IsLawful sem.new }
{
    let mut request = sem.acquire(1);
    match request.poll_once(sem, waker, steps) {
        Ok(Poll::Ready(permit)) => {
            sem.drop_permit(permit, steps);
            request.cancel(sem, steps);
            true
        }
        Ok(Poll::Pending) => {
            request.cancel(sem, steps);
            false
        }
        Err(_) => {
            request.cancel(sem, steps);
            false
        }
    }
}

/// Two ask, the first gives up, and the second is woken by the waker that it left last, and has its permit.
fn first_gives_up<L: Ledger, R: Abort>(rt: &R, alloc: Global, blank: Blank)
    requires name { blank.name ≡ L.name }
    requires parts { blank.parts ≡ L.parts }
    requires some { 0 < blank.parts }
{
    let mut steps: Steps<L> = Steps::new(blank);
    let mut sem = Semaphore::new(alloc, 5, 1);
    let mut two = sem.acquire(2);
    let mut one = sem.acquire(1);
    pends(rt, &mut two, &mut sem, Waker(7), &mut steps);
    pends(rt, &mut one, &mut sem, Waker(6), &mut steps);
    pends(rt, &mut one, &mut sem, Waker(8), &mut steps);
    two.cancel(&mut sem, &mut steps);
    assert_eq!(rt; sem.take_wake().map(|waker| waker.0), Some(8));
    let permit = gets(rt, &mut one, &mut sem, Waker(9), &mut steps);
    assert_eq!(rt; permit.permits(), 1);
    assert_eq!(rt; permit.of(), 5);
    assert_eq!(rt; one.requested(), 1);
    sem.drop_permit(permit, &mut steps);
    match one.poll_once(&mut sem, Waker(9), &mut steps) {
        Err(PollError::Finished) => {}
        Err(_) | Ok(Poll::Pending) => panic!(rt; "it was finished"),
        Ok(Poll::Ready(permit)) => permit.lose(),
    }
    one.lose();
    assert!(rt; knock(&mut sem, Waker(6), &mut steps));
}

#[test]
fn the_first_gives_up(rt: HostRuntime) {
    first_gives_up::<Brand, HostRuntime>(&rt, rt.alloc(), Blank::new(1));
}

/// Adds permits.
fn adds<L: Ledger, R: Abort>(rt: &R, sem: &mut Semaphore, n: u64, steps: &mut Steps<L>)
    ensures state { IsLike (released n sem.old) sem.new }
    ensures lawful { IsLawful sem.new }
{
    if let Err(error) = sem.release(n, steps) {
        panic!(rt; "{error}");
    }
}

/// Takes permits that are there.
pub(crate) fn takes<R: Abort>(rt: &R, sem: &mut Semaphore, n: u64) -> SemaphorePermit
    ensures permit { result ≡ new_permit sem.old.number n }
    ensures state { sem.new ≡ taken n sem.old }
    ensures lawful { IsLawful sem.new }
{
    match sem.try_acquire(n) {
        Some(permit) => permit,
        None => panic!(rt; "they were to be there"),
    }
}

/// Takes more permits than are there.
pub(crate) fn misses<R: Abort>(rt: &R, sem: &mut Semaphore, n: u64)
    ensures { sem.new ≡ sem.old }
{
    if let Some(permit) = sem.try_acquire(n) {
        permit.lose();
        panic!(rt; "they were not to be there")
    }
}

/// One asks, and then permits are added twice.
#[derive(Drop)]
struct Waited {
    asked: u64,
    added: u64,
    left: u64,
    held: u64,
    in_the_end: u64,
}

/// Who waited is woken once, has its permits before anybody else, and what is left is to be had.
fn waits<L: Ledger, R: Abort>(rt: &R, sem: &mut Semaphore, case: &Waited, steps: &mut Steps<L>) {
    let mut request = sem.acquire(case.asked);
    pends(rt, &mut request, sem, Waker(7), steps);
    assert_eq!(rt; sem.waiting_count(), 1);
    assert!(rt; !request.is_granted(sem, steps));
    adds(rt, sem, case.added, steps);
    assert!(rt; request.is_granted(sem, steps));
    assert_eq!(rt; sem.take_wake().map(|waker| waker.0), Some(7));
    assert!(rt; sem.take_wake().is_none());
    assert_eq!(rt; sem.granted_permits(), case.asked);
    assert_eq!(rt; sem.available_permits(), case.left);
    let permit = gets(rt, &mut request, sem, Waker(8), steps);
    assert_eq!(rt; permit.permits(), case.asked);
    assert_eq!(rt; sem.held_permits(), case.held);
    adds(rt, sem, 1, steps);
    assert_eq!(rt; sem.available_permits(), case.in_the_end);
    permit.lose();
    request.lose();
}

/// One asks where nothing is, and one where all is taken.
fn each_waits<L: Ledger, R: Abort>(rt: &R, alloc: Global, blank: Blank)
    requires name { blank.name ≡ L.name }
    requires parts { blank.parts ≡ L.parts }
    requires some { 0 < blank.parts }
{
    let mut steps: Steps<L> = Steps::new(blank);
    let none_there = Waited {
        asked: 2,
        added: 3,
        left: 1,
        held: 2,
        in_the_end: 2,
    };
    waits(
        rt,
        &mut Semaphore::new(alloc, 5, 0),
        &none_there,
        &mut steps,
    );
    let all_taken = Waited {
        asked: 1,
        added: 1,
        left: 0,
        held: 2,
        in_the_end: 1,
    };
    let mut sem = Semaphore::new(alloc, 5, 1);
    let taken = takes(rt, &mut sem, 1);
    waits(rt, &mut sem, &all_taken, &mut steps);
    taken.lose();
}

#[test]
fn who_waits_is_served_first(rt: HostRuntime) {
    each_waits::<Brand, HostRuntime>(&rt, rt.alloc(), Blank::new(1));
}

/// What is split off and merged again changes nothing.
pub(crate) fn splits_and_merges<R: Abort>(rt: &R, permit: &mut SemaphorePermit, n: u64)
    requires { permit.old.count ≤ u64.MAX }
    ensures { permit.new ≡ permit.old }
{
    match permit.split(n) {
        None => panic!(rt; "it has as many"),
        Some(other) => match permit.merge(other) {
            Ok(()) => {}
            Err(MergeError::OtherSemaphore(back)) => {
                back.lose();
                panic!(rt; "they are of one semaphore")
            }
        },
    }
}

/// More than there is can't be split off.
fn splits_no_more<R: Abort>(rt: &R, permit: &mut SemaphorePermit, n: u64)
    ensures { permit.new ≡ permit.old }
{
    if let Some(other) = permit.split(n) {
        other.lose();
        panic!(rt; "it has fewer")
    }
}

/// Permits come and go while nobody waits.
fn comes_and_goes<L: Ledger, R: Abort>(rt: &R, alloc: Global, blank: Blank)
    requires name { blank.name ≡ L.name }
    requires parts { blank.parts ≡ L.parts }
    requires some { 0 < blank.parts }
{
    let mut steps: Steps<L> = Steps::new(blank);
    let mut sem = Semaphore::new(alloc, 5, 1);
    adds(rt, &mut sem, 2, &mut steps);
    assert_eq!(rt; sem.available_permits(), 3);
    let mut permit = takes(rt, &mut sem, 2);
    adds(rt, &mut sem, 2, &mut steps);
    assert_eq!(rt; sem.available_permits(), 3);
    assert_eq!(rt; sem.number(), 5);
    misses(rt, &mut sem, 4);
    splits_and_merges(rt, &mut permit, 1);
    splits_no_more(rt, &mut permit, 3);
    let permit = sem.shrink(permit, 1, &mut steps);
    assert_eq!(rt; permit.permits(), 1);
    assert_eq!(rt; sem.available_permits(), 4);
    sem.forget(permit);
    assert_eq!(rt; sem.held_permits(), 0);
    assert_eq!(rt; sem.drain_permits(3), 3);
    assert!(rt; sem.reduce_permits(3, &mut steps).is_ok());
    assert_eq!(rt; sem.free(), -2);
    assert_eq!(rt; sem.available_permits(), 0);
}

#[test]
fn permits_come_and_go(rt: HostRuntime) {
    comes_and_goes::<Brand, HostRuntime>(&rt, rt.alloc(), Blank::new(1));
}

/// What is too much is refused, and so is a permit of another semaphore.
fn refuses<L: Ledger, R: Abort>(rt: &R, alloc: Global, blank: Blank)
    requires name { blank.name ≡ L.name }
    requires parts { blank.parts ≡ L.parts }
    requires some { 0 < blank.parts }
{
    let mut steps: Steps<L> = Steps::new(blank);
    let mut sem = Semaphore::new(alloc, 5, u64::MAX);
    assert!(rt; matches!(sem.release(1, &mut steps), Err(ReleaseError::Overflow)));
    assert_eq!(rt; sem.available_permits(), u64::MAX);
    let mut other = Semaphore::new(alloc, 6, 0);
    assert!(rt; other.reduce_permits(u64::MAX, &mut steps).is_ok());
    assert!(rt; matches!(other.reduce_permits(1, &mut steps), Err(ReduceError::Debt)));
    let mut permit = takes(rt, &mut sem, 2);
    match permit.merge(takes(rt, &mut other, 0)) {
        Err(MergeError::OtherSemaphore(back)) => back.lose(),
        Ok(()) => panic!(rt; "they are of two semaphores"),
    }
    permit.lose();
}

#[test]
fn too_much_is_refused(rt: HostRuntime) {
    refuses::<Brand, HostRuntime>(&rt, rt.alloc(), Blank::new(1));
}

#[test]
fn errors_read(rt: HostRuntime) -> Result<(), Fail> {
    let overflow = ReleaseError::Overflow.to_string(rt.alloc())?;
    assert_eq!(rt; overflow.as_str(), "the permits would overflow");
    for (error, text) in [
        (ReduceError::Debt, "the debt would overflow"),
        (ReduceError::NoMemory, "out of memory"),
    ] {
        assert_eq!(rt; error.to_string(rt.alloc())?.as_str(), text);
    }
    Ok(())
}
