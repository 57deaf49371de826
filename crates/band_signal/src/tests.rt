//! What no clause says: that calls succeed, in small lives of each machine, and the texts of errors.
ghost use Rattle.std.specs.Prelude.{◌≡◌, ◌<◌, Some, Ok, true};
ghost use Rattle.band_base.specs.declared.poll.Poll.TheVariants as poll;
ghost use Rattle.band_signal.specs.Completion.{told};

use crate::*;
use band_base::{Poll, PollError, Steps, Waker};
use band_line::WakerToken;
use std::alloc::Global;
use std::marker::Brand;
use std::process::Abort;
use std::sync::ledger::{Blank, Ledger};
use std::test::Fail;

fn is_pending<T: Drop>(answer: Result<Poll<T>, PollError>) -> bool {
    matches!(answer, Ok(Poll::Pending))
}

fn is_ready<T: Drop>(answer: Result<Poll<T>, PollError>) -> bool {
    matches!(answer, Ok(Poll::Ready(_)))
}

fn is_finished<T: Drop>(answer: Result<Poll<T>, PollError>) -> bool {
    matches!(answer, Err(PollError::Finished))
}

fn number(waker: Option<Waker>) -> u64 {
    match waker {
        Some(waker) => waker.0,
        None => 0,
    }
}

/// A latch of two opens at the second arrival, which counts for more than is left.
fn latch_opens<L: Ledger, R: Abort>(rt: &R, alloc: Global, blank: Blank)
    requires name { blank.name ≡ L.name }
    requires parts { blank.parts ≡ L.parts }
    requires some { 0 < blank.parts }
{
    let mut steps: Steps<L> = Steps::new(blank);
    let mut latch = Latch::new(alloc, 2);
    let mut wait = latch.wait();
    assert!(rt; is_pending(wait.poll(&mut latch, Waker(1), &mut steps)));
    latch.count_down();
    assert_eq!(rt; latch.count(), 1);
    assert_eq!(rt; latch.try_wait(), Err(1));
    assert_eq!(rt; number(latch.take_wake()), 0);
    latch.arrive(5);
    assert_eq!(rt; number(latch.take_wake()), 1);
    assert!(rt; is_ready(wait.poll(&mut latch, Waker(1), &mut steps)));
    assert!(rt; is_finished(wait.poll(&mut latch, Waker(1), &mut steps)));
    latch.arrive(u32::MAX);
    assert_eq!(rt; number(latch.take_wake()), 0);
    wait.cancel(&mut latch, &mut steps);
}

/// A countdown wakes nobody by itself, and a wait is a token.
fn countdown_falls<L: Ledger, R: Abort>(rt: &R, alloc: Global, blank: Blank)
    requires name { blank.name ≡ L.name }
    requires parts { blank.parts ≡ L.parts }
    requires some { 0 < blank.parts }
{
    let mut steps: Steps<L> = Steps::new(blank);
    let mut countdown = CountdownState::new(alloc, 3);
    let mut token: Option<WakerToken> = None;
    assert!(rt; is_pending(countdown.poll_wait(&mut token, Waker(4), &mut steps)));
    countdown.unregister(&mut token, &mut steps);
    assert!(rt; token.is_none());
    assert!(rt; is_pending(countdown.poll_wait(&mut token, Waker(5), &mut steps)));
    assert!(rt; !countdown.decrement(2));
    assert_eq!(rt; countdown.try_wait(), Err(1));
    assert!(rt; countdown.decrement(2));
    countdown.wake_all();
    assert_eq!(rt; number(countdown.take_wake()), 5);
    assert_eq!(rt; countdown.state(), 0);
    assert!(rt; is_ready(countdown.poll_wait(&mut token, Waker(5), &mut steps)));
}

/// An arrival counts though its wait is cancelled, and a barrier for none is one for one.
fn barrier_ends<L: Ledger, R: Abort>(rt: &R, alloc: Global, blank: Blank)
    requires name { blank.name ≡ L.name }
    requires parts { blank.parts ≡ L.parts }
    requires some { 0 < blank.parts }
{
    let mut steps: Steps<L> = Steps::new(blank);
    let mut barrier = Barrier::new(alloc, 2);
    let mut first = barrier.wait();
    assert!(rt; is_pending(first.poll(&mut barrier, Waker(1), &mut steps)));
    first.cancel(&mut barrier, &mut steps);
    let mut second = barrier.wait();
    assert!(rt; leads(second.poll(&mut barrier, Waker(2), &mut steps)));
    assert_eq!(rt; number(barrier.take_wake()), 0);
    second.lose();
    let mut alone = Barrier::new(alloc, 0);
    let mut wait = alone.wait();
    assert!(rt; leads(wait.poll(&mut alone, Waker(3), &mut steps)));
    wait.lose();
}

/// An arrival before the last.
fn arrives<R: Abort>(rt: &R, answer: Result<Poll<BarrierWaitResult>, PollError>)
    ensures { answer ≡ Ok poll.Pending }
{
    match answer {
        Ok(Poll::Pending) => {}
        Ok(Poll::Ready(_result)) => panic!(rt; "it was to wait"),
        Err(error) => panic!(rt; "{error}"),
    }
}

/// The third of three ends the generation, and leads it alone.
fn three_meet<L: Ledger, R: Abort>(rt: &R, alloc: Global, blank: Blank)
    requires name { blank.name ≡ L.name }
    requires parts { blank.parts ≡ L.parts }
    requires some { 0 < blank.parts }
{
    let mut steps: Steps<L> = Steps::new(blank);
    let mut barrier = Barrier::new(alloc, 3);
    let mut first = barrier.wait();
    let mut second = barrier.wait();
    let mut third = barrier.wait();
    arrives(rt, first.poll(&mut barrier, Waker(1), &mut steps));
    arrives(rt, second.poll(&mut barrier, Waker(2), &mut steps));
    assert_eq!(rt; number(barrier.take_wake()), 0);
    assert!(rt; leads(third.poll(&mut barrier, Waker(3), &mut steps)));
    assert_eq!(rt; number(barrier.take_wake()), 1);
    assert_eq!(rt; number(barrier.take_wake()), 2);
    assert_eq!(rt; number(barrier.take_wake()), 0);
    assert!(rt; follows(first.poll(&mut barrier, Waker(1), &mut steps)));
    assert!(rt; follows(second.poll(&mut barrier, Waker(2), &mut steps)));
    first.lose();
    second.lose();
    third.lose();
}

fn follows(answer: Result<Poll<BarrierWaitResult>, PollError>) -> bool {
    match answer {
        Ok(Poll::Ready(result)) => !result.is_leader(),
        _ => false,
    }
}

fn leads(answer: Result<Poll<BarrierWaitResult>, PollError>) -> bool {
    match answer {
        Ok(Poll::Ready(result)) => result.is_leader(),
        _ => false,
    }
}

/// The last handle of a group wakes who waits.
fn group_ends<L: Ledger, R: Abort>(rt: &R, alloc: Global, blank: Blank)
    requires name { blank.name ≡ L.name }
    requires parts { blank.parts ≡ L.parts }
    requires some { 0 < blank.parts }
{
    let mut steps: Steps<L> = Steps::new(blank);
    let (mut group, handle) = WaitGroup::new(alloc, 7);
    match group.clone_handle(&handle) {
        Ok(other) => {
            assert_eq!(rt; other.of(), 7);
            let mut wait = group.into_future(handle);
            assert!(rt; is_pending(wait.poll(&mut group, Waker(1), &mut steps)));
            let again = wait.clone();
            group.drop_handle(other);
            assert_eq!(rt; number(group.take_wake()), 1);
            assert!(rt; is_ready(wait.poll(&mut group, Waker(1), &mut steps)));
            wait.lose();
            again.cancel(&mut group, &mut steps);
        }
        Err(full) => {
            handle.lose();
            panic!(rt; "{full}")
        }
    }
}

/// A request is seen at once, and the shutdown ends with the last guard.
fn shutdown_ends<L: Ledger, R: Abort>(rt: &R, alloc: Global, blank: Blank)
    requires name { blank.name ≡ L.name }
    requires parts { blank.parts ≡ L.parts }
    requires some { 0 < blank.parts }
{
    let mut steps: Steps<L> = Steps::new(blank);
    let (mut state, mut shutdown, guard) = ShutdownState::new(alloc, 7);
    let mut requested = state.shutdown_requested();
    assert!(rt; is_pending(requested.poll(&mut state, Waker(2), &mut steps)));
    assert!(rt; is_pending(shutdown.poll(&mut state, Waker(1), &mut steps)));
    assert!(rt; state.is_shutdown_requested());
    assert_eq!(rt; number(state.take_wake()), 2);
    let watch = state.watch(&guard);
    assert_eq!(rt; watch.of(), guard.of());
    state.drop_guard(guard);
    assert_eq!(rt; number(state.take_wake()), 1);
    assert!(rt; is_ready(shutdown.poll(&mut state, Waker(1), &mut steps)));
    assert!(rt; is_ready(requested.poll(&mut state, Waker(2), &mut steps)));
    shutdown.clone().lose();
    shutdown.lose();
    requested.lose();
}

/// A guard may go on as a watch.
fn guards_are_cloned<R: Abort>(rt: &R, alloc: Global) {
    let (mut state, shutdown, guard) = ShutdownState::new(alloc, 7);
    shutdown.lose();
    match state.clone_guard(&guard) {
        Ok(other) => {
            let watch = state.into_watch(other);
            assert_eq!(rt; watch.of(), 7);
        }
        Err(full) => panic!(rt; "{full}"),
    }
    state.request_shutdown();
    assert!(rt; state.is_shutdown_requested());
    guard.lose();
}

/// A value reaches who waits, and comes back where nobody observes.
fn completion_ends<L: Ledger, R: Abort>(rt: &R, alloc: Global, blank: Blank)
    requires name { blank.name ≡ L.name }
    requires parts { blank.parts ≡ L.parts }
    requires some { 0 < blank.parts }
{
    let mut steps: Steps<L> = Steps::new(blank);
    let (mut state, completer, observer): (CompletionState<u64>, Completer, Completion) =
        CompletionState::new(alloc, 7);
    let mut wait = observer.wait();
    assert!(rt; is_pending(wait.poll(&mut state, Waker(1), &mut steps)));
    assert!(rt; state.result().is_none());
    assert_eq!(rt; number(state.take_wake()), 0);
    assert_eq!(rt; state.complete(completer, 7), Ok(()));
    assert_eq!(rt; number(state.take_wake()), 1);
    assert_eq!(rt; number(state.take_wake()), 0);
    assert!(rt; is_told_of_a_value(wait.poll(&mut state, Waker(1), &mut steps)));
    assert!(rt; is_finished(wait.poll(&mut state, Waker(1), &mut steps)));
    assert!(rt; matches!(state.result(), Some(Ok(7))));
    wait.cancel(&mut state, &mut steps);
    observer.lose();
}

fn is_told_of_a_value(answer: Result<Poll<Result<(), Abandoned>>, PollError>) -> bool {
    matches!(answer, Ok(Poll::Ready(Ok(()))))
}

fn is_told_of_none(answer: Result<Poll<Result<(), Abandoned>>, PollError>) -> bool {
    matches!(answer, Ok(Poll::Ready(Err(Abandoned))))
}

/// A completer that ends without a value tells who waits, and who asks later.
fn abandoned_is_told<L: Ledger, R: Abort>(rt: &R, alloc: Global, blank: Blank)
    requires name { blank.name ≡ L.name }
    requires parts { blank.parts ≡ L.parts }
    requires some { 0 < blank.parts }
{
    let mut steps: Steps<L> = Steps::new(blank);
    let (mut state, completer, observer): (CompletionState<u64>, Completer, Completion) =
        CompletionState::new(alloc, 9);
    let mut wait = observer.wait();
    assert!(rt; is_pending(wait.poll(&mut state, Waker(1), &mut steps)));
    state.abandon(completer);
    assert_eq!(rt; number(state.take_wake()), 1);
    assert_eq!(rt; number(state.take_wake()), 0);
    assert!(rt; is_told_of_none(wait.poll(&mut state, Waker(1), &mut steps)));
    assert!(rt; matches!(state.result(), Some(Err(Abandoned))));
    let mut late = observer.wait();
    assert!(rt; is_told_of_none(late.poll(&mut state, Waker(2), &mut steps)));
    wait.lose();
    late.lose();
    observer.lose();
}

/// Without an observer there is nobody to publish to.
fn unobserved_is_abandoned<R: Abort>(rt: &R, alloc: Global) {
    let (mut state, completer, observer): (CompletionState<u64>, Completer, Completion) =
        CompletionState::new(alloc, 8);
    match state.clone_observer(&observer) {
        Ok(other) => state.drop_observer(other),
        Err(full) => panic!(rt; "{full}"),
    }
    state.drop_observer(observer);
    assert_eq!(rt; state.complete(completer, 8), Err(8));
    assert_eq!(rt; number(state.take_wake()), 0);
    assert!(rt; matches!(state.result(), Some(Err(Abandoned))));
}

#[test]
fn the_latch_opens(rt: HostRuntime) {
    latch_opens::<Brand, HostRuntime>(&rt, rt.alloc(), Blank::new(1));
    countdown_falls::<Brand, HostRuntime>(&rt, rt.alloc(), Blank::new(1));
}

#[test]
fn the_barrier_ends(rt: HostRuntime) {
    barrier_ends::<Brand, HostRuntime>(&rt, rt.alloc(), Blank::new(1));
    three_meet::<Brand, HostRuntime>(&rt, rt.alloc(), Blank::new(1));
}

#[test]
fn the_group_ends(rt: HostRuntime) {
    group_ends::<Brand, HostRuntime>(&rt, rt.alloc(), Blank::new(1));
}

#[test]
fn the_shutdown_ends(rt: HostRuntime) {
    shutdown_ends::<Brand, HostRuntime>(&rt, rt.alloc(), Blank::new(1));
    guards_are_cloned(&rt, rt.alloc());
}

#[test]
fn the_completion_ends(rt: HostRuntime) {
    completion_ends::<Brand, HostRuntime>(&rt, rt.alloc(), Blank::new(1));
    abandoned_is_told::<Brand, HostRuntime>(&rt, rt.alloc(), Blank::new(1));
    unobserved_is_abandoned(&rt, rt.alloc());
}

#[test]
fn values_are_copied(rt: HostRuntime) -> Result<(), Fail> {
    let abandoned = Abandoned;
    let copy = abandoned;
    assert!(rt; copy == abandoned);
    let clone: Result<_, _> = abandoned.clone();
    assert!(rt; clone? == abandoned);
    let (state, shutdown, guard) = ShutdownState::new(rt.alloc(), 7);
    let watch = state.watch(&guard);
    let copy: Result<_, _> = watch.clone();
    shutdown.lose();
    guard.lose();
    assert_eq!(rt; copy?.of(), 7);
    Ok(())
}

#[test]
fn errors_have_texts(rt: HostRuntime) -> Result<(), Fail> {
    assert_eq!(rt;
        CountFull.to_string(rt.alloc())?.as_str(),
        "a count is full"
    );
    assert_eq!(rt;
        Abandoned.to_string(rt.alloc())?.as_str(),
        "completion was abandoned before a value was provided"
    );
    Ok(())
}
