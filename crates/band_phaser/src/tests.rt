//! What no clause says: that calls succeed, in small lives of a phaser, and the texts of errors.
ghost use Rattle.std.specs.Prelude.{◌≡◌, ◌<◌, false};
ghost use Rattle.band_phaser.specs.Phaser.{new_participant, with_parties};

use crate::{Closed, Phaser, PhaserError, PhaserParticipant, PhaserParticipants};
use band_base::{Poll, PollError, Steps, Waker};
use std::alloc::Global;
use std::marker::Brand;
use std::process::Abort;
use std::sync::ledger::{Blank, Ledger};
use std::test::Fail;

/// What a poll told: the phase, or 10 where it is pending, 11 where the phaser is closed, 12 after any error.
fn told(answer: Result<Poll<Result<u64, Closed>>, PollError>) -> u64 {
    match answer {
        Ok(Poll::Ready(Ok(phase))) => phase,
        Ok(Poll::Pending) => 10,
        Ok(Poll::Ready(Err(_))) => 11,
        Err(_) => 12,
    }
}

fn number(waker: Option<Waker>) -> u64 {
    match waker {
        Some(waker) => waker.0,
        None => 0,
    }
}

/// Registers one.
fn one<R: Abort>(rt: &R, ph: &mut Phaser) -> PhaserParticipant
    ensures participant { result ≡ new_participant ph.old.number }
    ensures state { ph.new ≡ with_parties 1 ph.old }
{
    match ph.register_one() {
        Ok(party) => party,
        Err(error) => panic!(rt; "{error}"),
    }
}

/// Registers some.
fn some<R: Abort>(rt: &R, ph: &mut Phaser, parties: u64) -> PhaserParticipants
    ensures participants { result ≡ record { of = ph.old.number; remaining = parties } }
    ensures state { ph.new ≡ with_parties parties ph.old }
{
    match ph.register(parties) {
        Ok(batch) => batch,
        Err(error) => panic!(rt; "{error}"),
    }
}

/// The phase wraps, and a wait for the phase that ended is told of the one that began, also once all is closed.
fn phase_wraps<L: Ledger, R: Abort>(rt: &R, alloc: Global, blank: Blank)
    requires name { blank.name ≡ L.name }
    requires parts { blank.parts ≡ L.parts }
    requires some { 0 < blank.parts }
{
    let mut steps: Steps<L> = Steps::new(blank);
    let mut ph = Phaser::at_phase(alloc, 5, u64::MAX);
    let mut party = one(rt, &mut ph);
    assert_eq!(rt; party.of(), 5);
    match party.arrive(&mut ph) {
        Err(_) => panic!(rt; "it is open"),
        Ok(phase) => {
            assert_eq!(rt; phase, u64::MAX);
            assert_eq!(rt; ph.phase(), 0);
            let mut other = ph.wait(0);
            assert_eq!(rt; told(other.poll(&mut ph, Waker(3), &mut steps)), 10);
            ph.close();
            assert_eq!(rt; number(ph.take_wake()), 3);
            let mut wait = party.wait();
            assert_eq!(rt;
                told(wait.poll(&mut party, &mut ph, Waker(4), &mut steps)),
                0
            );
            wait.lose();
            other.cancel(&mut ph, &mut steps);
        }
    }
    party.lose();
}

/// One that has arrived waits for the end of its phase, and the arrival of the other releases it.
fn one_waits_after_it_arrived<L: Ledger, R: Abort>(rt: &R, alloc: Global, blank: Blank)
    requires name { blank.name ≡ L.name }
    requires parts { blank.parts ≡ L.parts }
    requires some { 0 < blank.parts }
{
    let mut steps: Steps<L> = Steps::new(blank);
    let mut ph = Phaser::new(alloc, 5);
    let mut first = one(rt, &mut ph);
    let mut second = one(rt, &mut ph);
    assert_eq!(rt; first.arrive(&mut ph), Ok(0));
    let mut wait = first.wait();
    assert_eq!(rt;
        told(wait.poll(&mut first, &mut ph, Waker(1), &mut steps)),
        10
    );
    assert_eq!(rt; ph.arrived_parties(), 1);
    assert_eq!(rt; second.arrive(&mut ph), Ok(0));
    assert_eq!(rt; number(ph.take_wake()), 1);
    assert_eq!(rt; number(ph.take_wake()), 0);
    assert_eq!(rt;
        told(wait.poll(&mut first, &mut ph, Waker(1), &mut steps)),
        1
    );
    assert_eq!(rt; ph.unarrived_parties(), 2);
    wait.lose();
    first.lose();
    second.lose();
}

/// The other of two leaves an open phaser, which ends the phase and wakes the first.
fn two_meet<L: Ledger, R: Abort>(rt: &R, alloc: Global, blank: Blank)
    requires name { blank.name ≡ L.name }
    requires parts { blank.parts ≡ L.parts }
    requires some { 0 < blank.parts }
{
    let mut steps: Steps<L> = Steps::new(blank);
    let mut ph = Phaser::new(alloc, 5);
    let mut first = one(rt, &mut ph);
    let second = one(rt, &mut ph);
    let mut wait = first.wait();
    assert_eq!(rt;
        told(wait.poll(&mut first, &mut ph, Waker(1), &mut steps)),
        10
    );
    assert_eq!(rt; ph.arrived_parties(), 1);
    let mut same = ph.wait(0);
    assert_eq!(rt; told(same.poll(&mut ph, Waker(2), &mut steps)), 10);
    same.cancel(&mut ph, &mut steps);
    ph.wait(0).lose();
    assert_eq!(rt; second.deregister(&mut ph), Ok(0));
    assert_eq!(rt; number(ph.take_wake()), 1);
    assert_eq!(rt; number(ph.take_wake()), 0);
    assert_eq!(rt; ph.phase(), 1);
    assert_eq!(rt; ph.registered_parties(), 1);
    assert_eq!(rt;
        told(wait.poll(&mut first, &mut ph, Waker(1), &mut steps)),
        1
    );
    wait.cancel(&mut ph, &mut steps);
    first.lose();
}

/// Who is not yielded leaves with the batch, which may end the phase.
fn batch_leaves<R: Abort>(rt: &R, alloc: Global) {
    let mut ph = Phaser::new(alloc, 5);
    let mut batch = some(rt, &mut ph, 2);
    assert_eq!(rt; batch.of(), 5);
    match batch.next() {
        None => {
            batch.lose();
            panic!(rt; "there are two")
        }
        Some(mut first) => {
            assert_eq!(rt; batch.len(), 1);
            assert_eq!(rt; first.arrive(&mut ph), Ok(0));
            batch.withdraw(&mut ph);
            assert_eq!(rt; ph.phase(), 1);
            assert_eq!(rt; ph.registered_parties(), 1);
            assert_eq!(rt; ph.unarrived_parties(), 1);
            first.lose();
        }
    }
}

/// A closed phaser refuses, and still lets go.
fn closed_refuses<R: Abort>(rt: &R, alloc: Global) {
    let mut ph = Phaser::new(alloc, 5);
    let mut party = one(rt, &mut ph);
    ph.close();
    assert!(rt; ph.is_closed());
    assert_eq!(rt; party.arrive(&mut ph), Err(Closed));
    assert_eq!(rt; party.deregister(&mut ph), Err(Closed));
    assert_eq!(rt; ph.registered_parties(), 0);
    assert_eq!(rt; ph.phase(), 0);
    match ph.register(1) {
        Err(PhaserError::Closed) => {}
        Err(PhaserError::CountFull) => panic!(rt; "it is closed"),
        Ok(batch) => {
            batch.lose();
            panic!(rt; "it is closed")
        }
    }
}

/// A count at its last value takes no more, and all may leave at once.
fn count_is_full<R: Abort>(rt: &R, alloc: Global) {
    let mut ph = Phaser::new(alloc, 5);
    let batch = some(rt, &mut ph, u64::MAX);
    match ph.register_one() {
        Err(PhaserError::CountFull) => {}
        Err(PhaserError::Closed) => panic!(rt; "it is open"),
        Ok(party) => {
            party.lose();
            panic!(rt; "it is full")
        }
    }
    batch.withdraw(&mut ph);
    assert_eq!(rt; ph.registered_parties(), 0);
    assert_eq!(rt; ph.unarrived_parties(), 0);
    assert_eq!(rt; ph.phase(), 1);
}

#[test]
fn the_phase_wraps(rt: HostRuntime) {
    phase_wraps::<Brand, HostRuntime>(&rt, rt.alloc(), Blank::new(1));
}

#[test]
fn participants_come_and_go(rt: HostRuntime) {
    two_meet::<Brand, HostRuntime>(&rt, rt.alloc(), Blank::new(1));
    one_waits_after_it_arrived::<Brand, HostRuntime>(&rt, rt.alloc(), Blank::new(1));
    batch_leaves(&rt, rt.alloc());
    closed_refuses(&rt, rt.alloc());
    count_is_full(&rt, rt.alloc());
}

#[test]
fn errors_have_texts(rt: HostRuntime) -> Result<(), Fail> {
    let closed = Closed;
    let copy = closed;
    assert!(rt; copy == closed);
    let clone: Result<_, _> = closed.clone();
    assert!(rt; clone? == closed);
    assert_eq!(rt; closed.to_string(rt.alloc())?.as_str(), "Phaser is closed");
    for (error, text) in [
        (PhaserError::Closed, "Phaser is closed"),
        (PhaserError::CountFull, "a count is full"),
    ] {
        assert_eq!(rt; error.to_string(rt.alloc())?.as_str(), text);
    }
    Ok(())
}
