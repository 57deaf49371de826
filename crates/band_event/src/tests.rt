//! What no clause says: that calls succeed, in small lives of both events.
ghost use Rattle.std.specs.Prelude.{◌≡◌, ◌<◌};

use crate::{AutoResetEvent, ManualResetEvent};
use band_base::{Poll, PollError, Steps, Waker};
use std::alloc::Global;
use std::marker::Brand;
use std::process::Abort;
use std::sync::ledger::{Blank, Ledger};

fn is_pending(answer: Result<Poll<()>, PollError>) -> bool {
    matches!(answer, Ok(Poll::Pending))
}

fn is_ready(answer: Result<Poll<()>, PollError>) -> bool {
    matches!(answer, Ok(Poll::Ready(())))
}

fn number(waker: Option<Waker>) -> u64 {
    match waker {
        Some(waker) => waker.0,
        None => 0,
    }
}

/// A wait that was called and gives up hands the signal on, which a `reset` does not take.
fn signal_is_handed_on<L: Ledger, R: Abort>(rt: &R, alloc: Global, blank: Blank)
    requires name { blank.name ≡ L.name }
    requires parts { blank.parts ≡ L.parts }
    requires some { 0 < blank.parts }
{
    let mut steps: Steps<L> = Steps::new(blank);
    let mut event = AutoResetEvent::new(alloc);
    let mut first = event.wait();
    let mut second = event.wait();
    assert!(rt; is_pending(first.poll(&mut event, Waker(1), &mut steps)));
    assert!(rt; is_pending(second.poll(&mut event, Waker(2), &mut steps)));
    event.set(&mut steps);
    assert_eq!(rt; number(event.take_wake()), 1);
    event.reset();
    first.cancel(&mut event, &mut steps);
    assert_eq!(rt; number(event.take_wake()), 2);
    assert!(rt; is_ready(second.poll(&mut event, Waker(2), &mut steps)));
    assert!(rt; !event.is_set());
    second.lose();
}

/// A stored signal is taken once, by a wait or without one.
fn signal_is_stored<L: Ledger, R: Abort>(rt: &R, alloc: Global, blank: Blank)
    requires name { blank.name ≡ L.name }
    requires parts { blank.parts ≡ L.parts }
    requires some { 0 < blank.parts }
{
    let mut steps: Steps<L> = Steps::new(blank);
    let mut event = AutoResetEvent::with_state(alloc, true);
    assert!(rt; event.is_set());
    assert!(rt; event.try_wait());
    assert!(rt; !event.try_wait());
    event.set(&mut steps);
    event.set(&mut steps);
    let mut wait = event.wait();
    assert!(rt; is_ready(wait.poll(&mut event, Waker(1), &mut steps)));
    assert!(rt; !event.is_set());
    assert_eq!(rt; number(event.take_wake()), 0);
    wait.cancel(&mut event, &mut steps);
}

/// A wait that was called is ready after a `reset`.
fn event_is_reset<L: Ledger, R: Abort>(rt: &R, alloc: Global, blank: Blank)
    requires name { blank.name ≡ L.name }
    requires parts { blank.parts ≡ L.parts }
    requires some { 0 < blank.parts }
{
    let mut steps: Steps<L> = Steps::new(blank);
    let mut event = ManualResetEvent::new(alloc);
    let mut wait = event.wait();
    assert!(rt; is_pending(wait.poll(&mut event, Waker(1), &mut steps)));
    event.set(&mut steps);
    assert_eq!(rt; number(event.take_wake()), 1);
    event.set(&mut steps);
    assert_eq!(rt; number(event.take_wake()), 0);
    assert!(rt; event.is_set());
    event.reset();
    assert!(rt; is_ready(wait.poll(&mut event, Waker(1), &mut steps)));
    assert!(rt; !event.try_wait());
    wait.lose();
    let mut other = ManualResetEvent::with_state(alloc, true);
    let mut late = other.wait();
    assert!(rt; is_ready(late.poll(&mut other, Waker(2), &mut steps)));
    late.cancel(&mut other, &mut steps);
}

#[test]
fn the_signal_is_handed_on(rt: HostRuntime) {
    signal_is_handed_on::<Brand, HostRuntime>(&rt, rt.alloc(), Blank::new(1));
}

#[test]
fn the_signal_is_stored(rt: HostRuntime) {
    signal_is_stored::<Brand, HostRuntime>(&rt, rt.alloc(), Blank::new(1));
}

#[test]
fn the_event_is_reset(rt: HostRuntime) {
    event_is_reset::<Brand, HostRuntime>(&rt, rt.alloc(), Blank::new(1));
}
