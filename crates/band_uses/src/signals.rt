//! Latches, events, shutdowns and phasers.
ghost use Rattle.std.specs.Prelude.{◌≡◌, ◌<◌, ◌↔◌, Some, false, IsTrue, IsNone, IfSome, OnSome, IfNone, IfOk, IsErr};
ghost use Rattle.band_line.specs.Wakers.{waker_of};
ghost use Rattle.band_phaser.specs.Phaser.{new_participant, with_parties};
ghost use Rattle.band_signal.specs.Group.{without_handle};
ghost use Rattle.band_signal.specs.Shutdown.{is_requested};

use band_base::{Poll, PollError, Steps, Waker};
use band_event::AutoResetEvent;
use band_phaser::{Phaser, PhaserParticipant};
use band_signal::{Latch, ShutdownGuard, ShutdownState};
use std::alloc::Global;
use std::sync::ledger::Ledger;

/// Waits for two to start. The second of them wakes who waits.
pub fn two_start<L: Ledger>(alloc: Global, steps: &mut Steps<L>) -> Result<Option<Waker>, PollError>
    ensures woken { IfOk result (λ woken. woken ≡ Some (waker_of 7)) }
{
    let mut latch = Latch::new(alloc, 2);
    let mut wait = latch.wait();
    let answer = wait.poll(&mut latch, Waker(7), steps);
    latch.count_down();
    latch.count_down();
    let woken = latch.take_wake();
    wait.cancel(&mut latch, steps);
    answer?;
    Ok(woken)
}

/// Waits for a signal no longer than one poll, and tells whether there was one.
pub fn knocks<L: Ledger>(
    event: &mut AutoResetEvent,
    waker: Waker,
    steps: &mut Steps<L>,
) -> Result<bool, PollError>
    ensures taken { IfOk result (λ taken. taken ≡ event.old.is_set) }
    ensures unset { event.new.is_set ≡ false }
    ensures kept { IsErr result → event.old.is_set ≡ false }
{
    let mut wait = event.wait();
    let answer = wait.poll(event, waker, steps);
    wait.cancel(event, steps);
    match answer {
        Ok(Poll::Ready(())) => Ok(true),
        Ok(Poll::Pending) => Ok(false),
        Err(error) => Err(error),
    }
}

/// A worker goes on until shutdown is requested, and then ends its guard.
pub fn goes_on(state: &mut ShutdownState, guard: ShutdownGuard) -> Option<ShutdownGuard>
    requires number { guard ≡ state.old.guards.number }
    requires counted { 0 < state.old.guards.handles }
    ensures stops { IsNone result ↔ IsTrue (is_requested state.old) }
    ensures kept { IfSome result (λ kept. kept ≡ guard) }
    ensures same { OnSome result (state.new ≡ state.old) }
    ensures ended { IfNone result (state.new ≡ record state.old { guards = without_handle state.old.guards }) }
{
    if state.is_shutdown_requested() {
        state.drop_guard(guard);
        return None;
    }
    Some(guard)
}

/// Two meet at the end of a phase. The second to arrive begins the next one, and wakes who waits for that.
pub fn two_meet<L: Ledger>(alloc: Global, steps: &mut Steps<L>) -> Result<Option<Waker>, PollError>
    ensures woken { IfOk result (λ woken. woken ≡ Some (waker_of 7)) }
{
    let mut phaser = Phaser::new(alloc, 1);
    let mut first = takes_part(&mut phaser);
    let mut second = takes_part(&mut phaser);
    let mut wait = phaser.wait(0);
    let answer = wait.poll(&mut phaser, Waker(7), steps);
    let _phase = first.arrive(&mut phaser);
    let _phase = second.arrive(&mut phaser);
    let woken = phaser.take_wake();
    wait.cancel(&mut phaser, steps);
    first.lose();
    second.lose();
    answer?;
    Ok(woken)
}

/// Another takes part in the phases of an open phaser, from this one on.
pub fn takes_part(phaser: &mut Phaser) -> PhaserParticipant
    requires still_open { phaser.old.is_closed ≡ false }
    requires not_full { phaser.old.registered < u64.MAX }
    ensures party { result ≡ new_participant phaser.old.number }
    ensures state { phaser.new ≡ with_parties 1 phaser.old }
{
    match phaser.register_one() {
        Ok(party) => party,
        Err(_) => unreachable!(),
    }
}
